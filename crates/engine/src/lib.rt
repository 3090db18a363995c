// The engine of 01 (its "desk"): it holds one codelist or none, loads one from bytes, and rates ranges against it.
#![tactic(auto)]

ghost use Rattle.std.specs.Prelude.{◌≡◌};
ghost use Rattle.engine.specs.Engine.{number_of, place_of, empty_engine, loaded_of, formula_loaded_of, rated_of, in_full, loading_in_full};
ghost use Rattle.engine.specs.declared.Refusal.TheVariants.{Load, Rate, Formula};

use codelist::Codelist;
use rules::Limits;

// Started empty; loading replaces the codelist, or, refused, keeps it. A codelist that can't be rated counts as none, as that of an empty engine:
// one without factors or operations, with too many of them, or with an operation that is not well formed, as one that refers to a line that is
// not earlier, or multiplies by 0.
// No `Option`: the field is public, and whatever stands there has an outcome.
#[derive(Clone, Copy)]
pub struct Engine {
    pub codelist: Codelist,
}

// 01's refusals 1 to 12, and 15, 17, 19 and 20 of 02.
#[derive(Clone, Copy, PartialEq, Eq)]
pub enum Refusal {
    // 1 to 7, 15 and 17
    Load(codelist::Refusal),
    // 8 to 12
    Rate(rules::Refusal),
    // 19 and 20
    Formula(formulas::Refusal),
}

impl From<codelist::Refusal> for Refusal {
    ghost from_gives = { λ r e. e ≡ Load r };

    fn from(r: codelist::Refusal) -> Self {
        Self::Load(r)
    }
}

impl From<rules::Refusal> for Refusal {
    ghost from_gives = { λ r e. e ≡ Rate r };

    fn from(r: rules::Refusal) -> Self {
        Self::Rate(r)
    }
}

impl From<formulas::Refusal> for Refusal {
    ghost from_gives = { λ r e. e ≡ Formula r };

    fn from(r: formulas::Refusal) -> Self {
        Self::Formula(r)
    }
}

impl Refusal {
    // 01's number of the refusal.
    pub fn number(self) -> u8
        ensures { result ≡ number_of self }
    {
        match self {
            Refusal::Load(r) => r.number(),
            Refusal::Rate(rules::Refusal::NoCodelist) => 10,
            Refusal::Rate(rules::Refusal::RangeCount) => 8,
            Refusal::Rate(rules::Refusal::BadRange(_)) => 9,
            Refusal::Rate(rules::Refusal::Divisor(_)) => 11,
            Refusal::Rate(rules::Refusal::Overflow(_)) => 12,
            Refusal::Formula(r) => r.number(),
        }
    }

    // 01's place of the refusal.
    pub fn place(self) -> u64
        ensures { result ≡ place_of self }
    {
        match self {
            Refusal::Load(r) => r.place(),
            Refusal::Rate(rules::Refusal::NoCodelist | rules::Refusal::RangeCount) => 0,
            Refusal::Rate(rules::Refusal::BadRange(factor)) => u64::from(factor),
            Refusal::Rate(rules::Refusal::Divisor(line) | rules::Refusal::Overflow(line)) =>
                u64::from(line),
            Refusal::Formula(r) => r.place(),
        }
    }
}

impl Engine {
    // An empty engine.
    #[tactic(auto, unfolding(crate::specs::Engine::empty_engine))]
    pub fn new() -> Self
        ensures { result ≡ empty_engine }
    {
        Self {
            codelist: Codelist::empty(),
        }
    }

    // Loads the codelist of a text. After a refusal the engine is what it was.
    #[tactic(auto, unfolding(crate::specs::Engine::loaded_of))]
    pub fn load(&mut self, bytes: &[u8]) -> Result<(), Refusal>
        ensures { loading_in_full result self.new ≡ loaded_of self.old bytes.now }
    {
        self.codelist = codelist::load(bytes)?;
        Ok(())
    }

    // Loads a formula with a factor count (02, request 12): its sheet is loaded as any other. After a refusal the engine is what it was.
    #[tactic(auto, using(crate::proofs::Sheets::inside, crate::proofs::Sheets::taken, crate::proofs::Sheets::loads, crate::proofs::Sheets::refuses))]
    pub fn load_formula(&mut self, text: &[u8], factors: u64) -> Result<(), Refusal>
        ensures { loading_in_full result self.new ≡ formula_loaded_of self.old text.now factors }
    {
        let mut sheet = [0u8; 4097];
        let len = formulas::convert(text, factors, &mut sheet)?;
        self.load(&sheet[..len])
    }

    // The limits over the ranges, two numbers for each factor, or the refusal. The engine stays as it is.
    #[tactic(auto, unfolding(crate::specs::Engine::rated_of))]
    pub fn rate(self, ranges: &[i64]) -> Result<Limits, Refusal>
        ensures { in_full result ≡ rated_of self ranges.now }
    {
        Ok(bounds::rate(self.codelist, ranges)?)
    }
}
