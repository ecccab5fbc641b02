ghost use Rattle.std.specs.Prelude.{◌≡◌, ℕ, Bool, Option};

use letters::letter::Letter;

/// The most letters that a cycle can have, end left out.
pub const MOST_SPAN: u32 = 4095;

/// A rule as a machine of places: each letter is admitted or not at a place, and an admitted one leads to a following place.
pub trait Rule {
    ghost count: { Self → ℕ };

    ghost start: { Self → ℕ };

    ghost most: { Self → ℕ };

    ghost live: { Self → ℕ → Bool };

    ghost next: { Self → ℕ → ℕ → Option ℕ };

    ghost owed: { Self → ℕ → ℕ };

    ghost span: { Self → ℕ → ℕ };

    ghost lead: { Self → ℕ → Option ℕ };

    /// How many places there are.
    fn place_count(&self) -> u32
        ensures { result ≡ count self.now };

    /// The place where the first cycle begins.
    fn start_place(&self) -> u32
        ensures { result ≡ start self.now };

    /// The largest number of letters that is owed at any place.
    fn most_owed(&self) -> u32
        ensures { result ≡ most self.now };

    /// Whether the rule means this place.
    fn is_live(&self, place: u32) -> bool
        ensures { result ≡ live self.now place };

    /// The place that follows after a letter, or none where the letter is not admitted.
    fn following(&self, place: u32, letter: Letter) -> Option<u32>
        ensures { result ≡ next self.now place letter };

    /// How many letters a close still has to insert before the end is admitted.
    fn owed_at(&self, place: u32) -> u32
        ensures { result ≡ owed self.now place };

    /// The most letters that can still come in the cycle, end left out.
    fn span_at(&self, place: u32) -> u32
        ensures { result ≡ span self.now place };

    /// The letter that a close inserts next.
    fn lead_at(&self, place: u32) -> Option<Letter>
        ensures { result ≡ lead self.now place };
}
