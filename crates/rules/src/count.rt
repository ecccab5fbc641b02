ghost use Rattle.letters.specs.Declarations.{letters_of};
ghost use Rattle.rules.specs.Counts.{count_rule, CountMade, CountLawful};

use crate::fault::{MOST_NUMBER, RuleFault};
use crate::rule::Rule;
use letters::alphabet::{Alphabet, contains};
use letters::letter::{END, Letter};

/// At most `k` letters of an alphabet in a cycle, end left out: a place is the number of letters left.
#[derive(Clone, Copy)]
pub struct Count<'a> {
    letters: &'a [Letter],
    k: u8,
}

impl<'a> Count<'a> {
    /// The rule of at most `k` letters of the alphabet in a cycle.
    pub fn new(alphabet: &'a Alphabet, k: u32) -> Result<Count<'a>, RuleFault>
        ensures exact { CountMade (letters_of alphabet.now) k result }
        ensures lawful { CountLawful result }
    {
        if k > MOST_NUMBER {
            return Err(RuleFault::Number);
        }
        Ok(Count {
            letters: alphabet.letters(),
            // A cast, since the bound is `MOST_NUMBER` and not what a byte happens to hold.
            k: k as u8,
        })
    }
}

impl<'a> Rule for Count<'a> {
    ghost count = { count_rule.count };

    ghost start = { count_rule.start };

    ghost most = { count_rule.most };

    ghost live = { count_rule.live };

    ghost next = { count_rule.next };

    ghost owed = { count_rule.owed };

    ghost span = { count_rule.span };

    ghost lead = { count_rule.lead };

    fn place_count(&self) -> u32 {
        u32::from(self.k) + 1
    }

    fn start_place(&self) -> u32 {
        u32::from(self.k)
    }

    fn most_owed(&self) -> u32 {
        0
    }

    fn is_live(&self, place: u32) -> bool {
        place <= u32::from(self.k)
    }

    fn following(&self, place: u32, letter: Letter) -> Option<u32> {
        if !self.is_live(place) {
            return None;
        }
        if letter == END {
            return Some(u32::from(self.k));
        }
        if !contains(self.letters, letter) {
            return None;
        }
        place.checked_sub(1)
    }

    fn owed_at(&self, _place: u32) -> u32 {
        0
    }

    fn span_at(&self, place: u32) -> u32 {
        if self.is_live(place) { place } else { 0 }
    }

    fn lead_at(&self, _place: u32) -> Option<Letter> {
        None
    }
}
