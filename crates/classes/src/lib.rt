// Four classes on one desk (02, request 13): four engines by their class numbers 1 to 4. Loading one class leaves the others alone. Each call is the engine's
// with the class number before its other parameters; another number than 1 to 4 is refused with 21, before everything else.
#![tactic(auto)]

ghost use Rattle.std.specs.Prelude.{◌≡◌, MatchResult};
ghost use Rattle.std.specs.Borrow.{sem};
ghost use Rattle.boats.specs.Boats.{numbers_of};
ghost use Rattle.classes.specs.Classes.{is_class, empty_classes};
ghost use Rattle.classes.specs.Found.{IsEngineOf, HasNoEngine, LendsEngine};
ghost use Rattle.classes.specs.Calls.{number_of, place_of, class_loaded, class_formula, class_rated};
ghost use Rattle.classes.specs.Calls.{class_cut, class_fleet, class_fleet_of_numbers, class_sisters, class_edge};
ghost use Rattle.classes.specs.Calls.{loading_in_full, rating_in_full, page_in_full, difference_in_full, edge_in_full};
ghost use Rattle.classes.specs.declared.Refusal.TheVariants.{Engine, Cut, Fleet, Edge};

use boats::{Boat, Report};
use engine::Engine;
use margin::Widening;
use range::Range;
use rules::Limits;

// Classes 1 to 4 in this order, each empty or with a codelist. Fields and no array: in the specifications an array is a list of any length, and
// `loaded-written`, by which an accepted load is found in its class, is false of a shorter one.
#[derive(Clone, Copy)]
pub struct Classes {
    pub first: Engine,
    pub second: Engine,
    pub third: Engine,
    pub fourth: Engine,
}

#[derive(Clone, Copy, PartialEq, Eq)]
pub enum Refusal {
    // 21: the number is no class's
    Class,
    // of load, load_formula, rate and sisters
    Engine(engine::Refusal),
    Cut(bisection::Refusal),
    Fleet(boats::Refusal),
    Edge(margin::Refusal),
}

impl From<engine::Refusal> for Refusal {
    ghost from_gives = { λ r e. e ≡ Engine r };

    fn from(r: engine::Refusal) -> Self {
        Self::Engine(r)
    }
}

impl From<bisection::Refusal> for Refusal {
    ghost from_gives = { λ r e. e ≡ Cut r };

    fn from(r: bisection::Refusal) -> Self {
        Self::Cut(r)
    }
}

impl From<boats::Refusal> for Refusal {
    ghost from_gives = { λ r e. e ≡ Fleet r };

    fn from(r: boats::Refusal) -> Self {
        Self::Fleet(r)
    }
}

impl From<margin::Refusal> for Refusal {
    ghost from_gives = { λ r e. e ≡ Edge r };

    fn from(r: margin::Refusal) -> Self {
        Self::Edge(r)
    }
}

impl Refusal {
    // The refusal's number.
    pub fn number(self) -> u8
        ensures { result ≡ number_of self }
    {
        match self {
            Refusal::Class => 21,
            Refusal::Engine(r) => r.number(),
            Refusal::Cut(r) => r.number(),
            Refusal::Fleet(r) => r.number(),
            Refusal::Edge(r) => r.number(),
        }
    }

    // The refusal's place.
    pub fn place(self) -> u64
        ensures { result ≡ place_of self }
    {
        match self {
            Refusal::Class => 0,
            Refusal::Engine(r) => r.place(),
            Refusal::Cut(r) => r.place(),
            Refusal::Fleet(r) => r.place(),
            Refusal::Edge(r) => r.place(),
        }
    }
}

// Whether the number is a class's.
#[tactic(auto, unfolding(crate::specs::Classes::is_class))]
pub fn is_class(class: u64) -> bool
    ensures { result ≡ is_class class }
{
    (1..=4).contains(&class)
}

impl Classes {
    // Four empty classes.
    #[tactic(auto, unfolding(crate::specs::Classes::empty_classes))]
    pub fn new() -> Self
        ensures { result ≡ empty_classes }
    {
        let empty = Engine::new();
        Self {
            first: empty,
            second: empty,
            third: empty,
            fourth: empty,
        }
    }

    // The engine of a class, where it lies.
    #[tactic(auto, unfolding(crate::specs::Classes::is_class, crate::specs::Classes::engine_at))]
    fn engine(&self, class: u64) -> Result<&Engine, Refusal>
        ensures { MatchResult result (λ e. IsEngineOf self.now class e.now) (λ r. HasNoEngine class r) }
    {
        match class {
            1 => Ok(&self.first),
            2 => Ok(&self.second),
            3 => Ok(&self.third),
            4 => Ok(&self.fourth),
            _ => Err(Refusal::Class),
        }
    }

    // The same, to be loaded.
    #[tactic(auto, unfolding(crate::specs::Classes::is_class, crate::specs::Classes::engine_at, crate::specs::Classes::with_engine))]
    fn engine_mut(&mut self, class: u64) -> Result<&mut Engine, Refusal>
        ensures* lends { sem 𝓛 (LendsEngine self.entry class result) }
        ensures finds { MatchResult result (λ e. IsEngineOf self.old class e.now) (λ r. HasNoEngine class r) }
    {
        match class {
            1 => Ok(&mut self.first),
            2 => Ok(&mut self.second),
            3 => Ok(&mut self.third),
            4 => Ok(&mut self.fourth),
            _ => Err(Refusal::Class),
        }
    }

    // Loads the codelist of a text into a class. After a refusal all four classes are what they were.
    #[tactic(auto, unfolding(crate::specs::Calls::class_loaded))]
    pub fn load(&mut self, class: u64, bytes: &[u8]) -> Result<(), Refusal>
        ensures { loading_in_full result self.new ≡ class_loaded self.old class bytes.now }
    {
        self.engine_mut(class)?.load(bytes)?;
        Ok(())
    }

    // The same of a formula with a factor count.
    #[tactic(auto, unfolding(crate::specs::Calls::class_formula))]
    pub fn load_formula(&mut self, class: u64, text: &[u8], factors: u64) -> Result<(), Refusal>
        ensures { loading_in_full result self.new ≡ class_formula self.old class text.now factors }
    {
        self.engine_mut(class)?.load_formula(text, factors)?;
        Ok(())
    }

    // The limits over the ranges, or the refusal. The engine is rated where it lies, in a branch for each class: lent by `engine`, it would be copied for each
    // rating, which a short codelist notices.
    #[tactic(auto, unfolding(crate::specs::Calls::class_rated, crate::specs::Classes::is_class, crate::specs::Classes::engine_at))]
    pub fn rate(self, class: u64, ranges: &[i64]) -> Result<Limits, Refusal>
        ensures { rating_in_full result ≡ class_rated self class ranges.now }
    {
        let rated = match class {
            1 => self.first.rate(ranges),
            2 => self.second.rate(ranges),
            3 => self.third.rate(ranges),
            4 => self.fourth.rate(ranges),
            _ => return Err(Refusal::Class),
        };
        Ok(rated?)
    }

    // The same, cut to a depth.
    #[tactic(auto, unfolding(crate::specs::Calls::class_cut))]
    pub fn cut(self, class: u64, ranges: &[i64], depth: i64) -> Result<Limits, Refusal>
        ensures { rating_in_full result ≡ class_cut self class ranges.now depth }
    {
        Ok(bisection::rate(*self.engine(class)?, ranges, depth)?)
    }

    // The page of records of eight numbers, one after another.
    #[tactic(auto, unfolding(crate::specs::Calls::class_fleet_of_numbers))]
    pub fn fleet(self, class: u64, numbers: &[i64]) -> Result<Report, Refusal>
        ensures { page_in_full result ≡ class_fleet_of_numbers self class numbers.now }
    {
        Ok(boats::of_numbers(*self.engine(class)?, numbers)?)
    }

    // Between which two numbers the second boat's premium less the first one's lies.
    #[tactic(auto, unfolding(crate::specs::Calls::class_sisters))]
    pub fn sisters(self, class: u64, ranges: &[i64], boats: &[i64]) -> Result<Range, Refusal>
        ensures { difference_in_full result ≡ class_sisters self class ranges.now boats.now }
    {
        Ok(increments::sisters(*self.engine(class)?, ranges, boats)?)
    }

    // The smallest widening of one range's high end after which rating is refused or the value passes the ceiling, or none.
    #[tactic(auto, unfolding(crate::specs::Calls::class_edge))]
    pub fn edge(self, class: u64, ranges: &[i64], ceiling: i64) -> Result<Option<Widening>, Refusal>
        ensures { edge_in_full result ≡ class_edge self class ranges.now ceiling }
    {
        Ok(margin::nearest(*self.engine(class)?, ranges, ceiling)?)
    }
}

// The page of a lent list of boats.
#[tactic(auto, unfolding(crate::specs::Calls::class_fleet))]
pub fn fleet_of_boats(class: u64, classes: Classes, boats: &[Boat]) -> Result<Report, Refusal>
    ensures { page_in_full result ≡ class_fleet classes class (numbers_of boats.now) }
{
    Ok(boats::of_boats(*classes.engine(class)?, boats)?)
}
