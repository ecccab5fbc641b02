ghost use Rattle.std.specs.Prelude.{◌≡◌, ◌+◌, ◌*◌, ◌/◌, ◌%◌, cond, Some, None};
ghost use Rattle.rules.specs.Capped.{cap_live};
ghost use Rattle.rules.specs.Meaning.{Lawful};
ghost use Rattle.rules.specs.Valued.{meaning};
ghost use Rattle.rules.specs.Caps.{cut, cap_rule, cap_made, default_cap, CapLawful, CapPlain};

use crate::fault::{MOST_NUMBER, MOST_PLACES, RuleFault};
use crate::rule::Rule;
use letters::letter::{END, Letter};

/// The number of a cap that is made without one.
pub const DEFAULT_CAP: u32 = MOST_NUMBER;

/// A rule with at most `k` letters in a cycle, end left out.
#[derive(Drop)]
pub struct Cap<R> {
    below: R,
    k: u8,
}

impl<R> Cap<R> {
    /// The place below that a place stands for.
    fn place_below(&self, place: u32) -> u32
        ensures { result ≡ place / (self.now.k + 1) }
    {
        place / (u32::from(self.k) + 1)
    }

    /// The letters left at a place.
    fn left_at(&self, place: u32) -> u32
        ensures { result ≡ place % (self.now.k + 1) }
    {
        place % (u32::from(self.k) + 1)
    }

    /// The place of a place below with some letters left, or the largest number where that is larger.
    fn place_of(&self, below: u32, left: u32) -> u32
        ensures { result ≡ cut (below * (self.now.k + 1) + left) }
    {
        let place = u64::from(below) * (u64::from(self.k) + 1) + u64::from(left);
        u32::try_from(place).unwrap_or(u32::MAX)
    }
}

impl<R: Rule> Cap<R> {
    /// The place below that a live place stands for.
    fn live_below(&self, place: u32) -> Option<u32>
        ensures { result ≡ cond (cap_live (meaning R.Rule self.now.below) (place / (self.now.k + 1)) (place % (self.now.k + 1))) (Some (place / (self.now.k + 1))) None }
    {
        let below = self.place_below(place);
        let fits = self.below.is_live(below) && self.below.owed_at(below) <= self.left_at(place);
        fits.then_some(below)
    }

    /// The cap of `k` over a rule; a refusal drops the rule.
    pub fn new(below: R, k: u32) -> Result<Cap<R>, RuleFault>
    where
        R: Drop,
        ensures exact { result ≡ cap_made R.Rule below k }
        ensures lawful { Lawful (meaning R.Rule below) → CapLawful R.Rule result }
        ensures plain { Lawful (meaning R.Rule below) → CapPlain R.Rule below k result }
    {
        if k > MOST_NUMBER || k < below.most_owed() {
            return Err(RuleFault::Number);
        }
        if u64::from(below.place_count()) * (u64::from(k) + 1) > MOST_PLACES {
            return Err(RuleFault::Places);
        }
        // A cast, since the bound is `MOST_NUMBER` and not what a byte happens to hold.
        Ok(Cap { below, k: k as u8 })
    }

    /// The cap of `DEFAULT_CAP` over a rule; a refusal drops the rule.
    pub fn standard(below: R) -> Result<Cap<R>, RuleFault>
    where
        R: Drop,
        ensures exact { result ≡ cap_made R.Rule below default_cap }
        ensures lawful { Lawful (meaning R.Rule below) → CapLawful R.Rule result }
        ensures plain { Lawful (meaning R.Rule below) → CapPlain R.Rule below default_cap result }
    {
        Cap::new(below, DEFAULT_CAP)
    }
}

impl<R: Rule> Rule for Cap<R> {
    ghost count = { (cap_rule R.Rule).count };

    ghost start = { (cap_rule R.Rule).start };

    ghost most = { (cap_rule R.Rule).most };

    ghost live = { (cap_rule R.Rule).live };

    ghost next = { (cap_rule R.Rule).next };

    ghost owed = { (cap_rule R.Rule).owed };

    ghost span = { (cap_rule R.Rule).span };

    ghost lead = { (cap_rule R.Rule).lead };

    fn place_count(&self) -> u32 {
        self.place_of(self.below.place_count(), 0)
    }

    fn start_place(&self) -> u32 {
        self.place_of(self.below.start_place(), u32::from(self.k))
    }

    fn most_owed(&self) -> u32 {
        self.below.most_owed()
    }

    fn is_live(&self, place: u32) -> bool {
        self.live_below(place).is_some()
    }

    fn following(&self, place: u32, letter: Letter) -> Option<u32> {
        let after = self.below.following(self.live_below(place)?, letter)?;
        if letter == END {
            return Some(self.place_of(after, u32::from(self.k)));
        }
        let left = self.left_at(place).checked_sub(1)?;
        (self.below.owed_at(after) <= left).then_some(self.place_of(after, left))
    }

    fn owed_at(&self, place: u32) -> u32 {
        match self.live_below(place) {
            Some(below) => self.below.owed_at(below),
            None => 0,
        }
    }

    fn span_at(&self, place: u32) -> u32 {
        match self.live_below(place) {
            Some(below) => self.below.span_at(below).min(self.left_at(place)),
            None => 0,
        }
    }

    fn lead_at(&self, place: u32) -> Option<Letter> {
        self.below.lead_at(self.live_below(place)?)
    }
}
