ghost use Rattle.std.specs.Prelude.{◌≡◌};
ghost use Rattle.rules.specs.Faults.{rule_number};

/// The largest number that a rule is made with.
pub const MOST_NUMBER: u32 = 255;

/// The most places that a rule has.
pub const MOST_PLACES: u64 = 1_048_576;

/// Why a rule is not made.
#[derive(Clone, Copy, PartialEq, Eq, Debug)]
pub enum RuleFault {
    /// A number over `MOST_NUMBER`, or a cap under the most that is owed.
    Number = 16,
    /// More than `MOST_PLACES` places.
    Places = 17,
    /// No rows, rows past the memory, or rows that break a law.
    Rows = 18,
}

impl RuleFault {
    /// The refusal's number.
    pub fn number(self) -> u8
        ensures { result ≡ rule_number self }
    {
        // A cast, by which the language gives a discriminant.
        self as u8
    }
}
