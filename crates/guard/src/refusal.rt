ghost use Rattle.std.specs.Prelude.{◌≡◌};
ghost use Rattle.guard.specs.Refusals.{refusal_number};

/// Why a guard refuses a call.
#[derive(Clone, Copy, PartialEq, Eq, Debug)]
pub enum Refusal {
    /// The guard's place is not live under the rule.
    NotLive = 20,
    /// What is offered is no letter.
    NoLetter = 21,
    /// The end is offered to an act.
    EndOffered = 22,
    /// The cycle has as many acts as are counted.
    Full = 23,
    /// The output is too short for what would be written.
    Short = 24,
}

impl Refusal {
    /// The refusal's number.
    pub fn number(self) -> u8
        ensures { result ≡ refusal_number self }
    {
        // A cast, by which the language gives a discriminant.
        self as u8
    }
}
