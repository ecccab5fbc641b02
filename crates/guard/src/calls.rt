ghost use Rattle.std.specs.Prelude.{◌≡◌, length};
ghost use Rattle.rules.specs.Meaning.{Lawful};
ghost use Rattle.rules.specs.Valued.{meaning};
ghost use Rattle.guard.specs.Calls.{resting, running, over, acting, act_answer, act_guard, act_writes, closing, close_answer, close_writes, CloseByLeads};

use crate::refusal::Refusal;
use letters::letter::{END, Letter, read};
use rules::rule::Rule;

/// The most acts of a cycle.
pub const MOST_ACTS: u16 = 4096;

/// A guard outside a cycle.
#[derive(Drop)]
pub struct Resting {
    place: u32,
}

/// A guard inside a cycle, with the acts that it has accepted there.
#[derive(Drop)]
pub struct Running {
    place: u32,
    acts: u16,
}

/// What an accepted act answers.
#[derive(Clone, Copy, PartialEq, Eq, Debug)]
pub enum Answer {
    Passed,
    Dropped,
}

/// A guard at the start of a rule.
pub fn start<R: Rule>(rule: &R) -> Resting
    ensures { result ≡ resting (meaning R.Rule rule.now).start }
{
    Resting {
        place: rule.start_place(),
    }
}

impl Resting {
    /// Begins a cycle.
    pub fn begin(self) -> Running
        ensures { result ≡ running self.place 0 }
    {
        Running {
            place: self.place,
            acts: 0,
        }
    }
}

impl Running {
    /// Offers a letter other than the end: written and passed where the rule admits it, else dropped.
    pub fn act<R: Rule>(
        &mut self,
        rule: &R,
        letter: Letter,
        out: &mut [Letter],
    ) -> Result<Answer, Refusal>
        ensures answer { result ≡ act_answer (acting (meaning R.Rule rule.now) self.old letter (length out.old)) }
        ensures guard { self.new ≡ act_guard (acting (meaning R.Rule rule.now) self.old letter (length out.old)) self.old }
        ensures wrote { out.new ≡ over (act_writes (acting (meaning R.Rule rule.now) self.old letter (length out.old)) letter) out.old }
    {
        if !rule.is_live(self.place) {
            return Err(Refusal::NotLive);
        }
        if read(letter).is_none() {
            return Err(Refusal::NoLetter);
        }
        if letter == END {
            return Err(Refusal::EndOffered);
        }
        if self.acts >= MOST_ACTS {
            return Err(Refusal::Full);
        }
        match rule.following(self.place, letter) {
            None => {
                self.acts += 1;
                Ok(Answer::Dropped)
            }
            Some(place) => {
                if out.is_empty() {
                    return Err(Refusal::Short);
                }
                out[0] = letter;
                self.place = place;
                self.acts += 1;
                Ok(Answer::Passed)
            }
        }
    }

    /// Offers the end: writes the leads until nothing is owed, then the end, and gives the guard at rest and the
    /// number of letters written.
    pub fn close<R: Rule>(
        self,
        rule: &R,
        out: &mut [Letter],
    ) -> Result<(Resting, usize), (Running, Refusal)>
        ensures answer { result ≡ close_answer (meaning R.Rule rule.now) self (closing (meaning R.Rule rule.now) self (length out.old)) }
        ensures wrote { out.new ≡ over (close_writes (meaning R.Rule rule.now) self (closing (meaning R.Rule rule.now) self (length out.old))) out.old }
        ensures led { Lawful (meaning R.Rule rule.now) → CloseByLeads (meaning R.Rule rule.now) self result (close_writes (meaning R.Rule rule.now) self (closing (meaning R.Rule rule.now) self (length out.old))) }
    {
        if !rule.is_live(self.place) {
            return Err((self, Refusal::NotLive));
        }
        // A cast, since the language widens no `u32` to a `usize` by `From`.
        let owed = rule.owed_at(self.place) as usize;
        if owed >= out.len() {
            return Err((self, Refusal::Short));
        }
        let (way, rest) = out.split_at_mut(owed);
        let mut place = self.place;
        for slot in way.iter_mut() {
            let letter = rule.lead_at(place).unwrap_or(END);
            *slot = letter;
            place = rule.following(place, letter).unwrap_or(place);
        }
        rest[0] = END;
        let place = rule.following(place, END).unwrap_or(place);
        Ok((Resting { place }, owed + 1))
    }
}
