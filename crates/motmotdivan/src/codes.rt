// Why a call is refused, and the code of that: a refusal's number plus 100 times its place.
ghost use Rattle.std.specs.Prelude.{◌≡◌, ◌≤◌};
ghost use Rattle.engine.specs.declared.Refusal.TheVariants.{Load, Rate};
ghost use Rattle.motmotdivan.specs.declared.codes.Refusal.TheVariants.{Engine};
ghost use Rattle.motmotdivan.specs.Calls.{code_of};
ghost use Rattle.motmotdivan.specs.Views.{number_of, place_of};

#[derive(Clone, Copy)]
pub(crate) enum Refusal {
    // 21: the number is no class's
    Class,
    // 10: the class is empty
    NoCodelist,
    // 8: a record is of another length
    Length,
    // 18: the lowest factor, from 1, with an end that is no whole number
    Fraction(u64),
    // of loading and of rating
    Engine(engine::Refusal),
}

impl From<codelist::Refusal> for Refusal {
    ghost from_gives = { λ r e. e ≡ Engine (Load r) };

    fn from(r: codelist::Refusal) -> Refusal {
        Refusal::Engine(engine::Refusal::Load(r))
    }
}

impl From<rules::Refusal> for Refusal {
    ghost from_gives = { λ r e. e ≡ Engine (Rate r) };

    fn from(r: rules::Refusal) -> Refusal {
        Refusal::Engine(engine::Refusal::Rate(r))
    }
}

impl Refusal {
    fn number(self) -> u8
        ensures { result ≡ number_of self }
    {
        match self {
            Refusal::Class => 21,
            Refusal::NoCodelist => 10,
            Refusal::Length => 8,
            Refusal::Fraction(_) => 18,
            Refusal::Engine(r) => r.number(),
        }
    }

    fn place(self) -> u64
        ensures { result ≡ place_of self }
    {
        match self {
            Refusal::Class | Refusal::NoCodelist | Refusal::Length => 0,
            Refusal::Fraction(a) => a,
            Refusal::Engine(r) => r.place(),
        }
    }

    // Its place is that of a text line or of a codelist line, or a factor: the code does not wrap.
    pub(crate) fn code(self) -> u64
        requires { place_of self ≤ 65 }
        ensures { result ≡ code_of (number_of self) (place_of self) }
    {
        u64::from(self.number()) + 100 * self.place()
    }
}
