ghost use Rattle.std.specs.Prelude.{◌≡◌, ℕ, ◌^◌, ◌<◌, length, if◌then◌else◌, Some, nat_eq, slice_index};
ghost use Rattle.property.specs.Checks.{most_nodes};
ghost use Rattle.property.specs.Nodes.{branches};
ghost use Rattle.property.specs.Sizes.{size};
ghost use Rattle.places.specs.Walks.{target};
ghost use Rattle.places.specs.declared.outcome.Outcome.TheVariants.{Dead};
ghost use Rattle.synthesis.specs.Courses.{OnesBefore, OnesKept, Row, StartsKept, bit, checked_nodes, course, nodes_of};
ghost use Rattle.synthesis.specs.Outcomes.{leads_on};
ghost use Rattle.synthesis.specs.Singles.{is_at, is_done, ends_at};

use crate::course::{CheckedFile, Course};
use letters::alphabet::MOST_LETTERS;
use letters::letter::Letter;
use places::outcome::Outcome;
use property::branches::branches_at;
use property::node::{MOST_NODES, Node};
use records::body::{BRANCH_BYTES, two_bytes};

/// The node that the branch with the letter names.
pub(crate) fn target(body: &[u8], letter: Letter) -> Option<usize>
    ensures { result ≡ target (branches body.now) letter }
{
    body.chunks_exact(BRANCH_BYTES)
        .find(|branch| branch[0] == letter)
        .map(|branch| two_bytes(branch[1], branch[2]))
}

/// Whether the bit is set.
fn is_set(bits: u32, j: usize) -> bool
    requires { j < 32 }
    ensures { result ≡ bit bits j }
{
    (bits >> j) & 1 == 1
}

/// Where a letter leads, if it leads on to `on` or else nowhere.
fn led(leads_on: bool, on: Outcome) -> Outcome
    ensures { result ≡ (if leads_on then on else Dead) }
{
    if leads_on { on } else { Outcome::Dead }
}

/// Whether the branches lead by the letter to a node whose walk is done where it starts.
fn is_ending(starts: &[Outcome; MOST_NODES], body: &[u8], letter: Letter) -> bool
    requires { (m : ℕ) → target (branches body.now) letter ≡ Some m → m < most_nodes }
    ensures { result ≡ ends_at starts.now (target (branches body.now) letter) }
{
    target(body, letter).is_some_and(|m| starts[m] == Outcome::Done)
}

/// The letters that lead on from the only place of a Lap, from where its node starts and the letters of that.
fn ones_in_lap(start: Outcome, ones: u32) -> u32
    ensures { result ≡ (if is_at start then ones else 0) }
{
    match start {
        Outcome::At(_) => ones,
        Outcome::Dead | Outcome::Done => 0,
    }
}

/// The letters that lead on from the only place of a Sequence, from those of its nodes; its second has `size` places and
/// starts with `start`.
fn ones_in_sequence(size: u16, start: Outcome, first: u32, second: u32) -> u32
    ensures { result ≡ (if nat_eq size 1 then second else (if is_done start then first else 0)) }
{
    if size == 1 {
        return second;
    }
    match start {
        Outcome::Done => first,
        Outcome::Dead | Outcome::At(_) => 0,
    }
}

impl CheckedFile<'_> {
    /// The letters by which the branches lead to a node whose walk is done where it starts.
    fn ending_letters(&self, starts: &[Outcome; MOST_NODES], body: &[u8]) -> u32
        requires { (l m : ℕ) → target (branches body.now) l ≡ Some m → m < most_nodes }
        ensures bits { (j : ℕ) → j < length self.now.letters.now → bit result j ≡ ends_at starts.now (target (branches body.now) (slice_index self.now.letters.now j)) }
        ensures below { result < 2 ^ length self.now.letters.now }
    {
        let mut bits = 0;
        for (j, letter) in self.letters.iter().enumerate() {
            if is_ending(starts, body, *letter) {
                bits |= 1 << j;
            }
        }
        bits
    }

    /// The letters that lead on from the only place of a node, if it has only one.
    fn ones_of(&self, starts: &[Outcome; MOST_NODES], ones: &[u32; MOST_NODES], n: usize) -> u32
        requires within { n < length (checked_nodes self.now) }
        requires starts { StartsKept (checked_nodes self.now) starts.now }
        requires kept { OnesBefore (checked_nodes self.now) self.now.letters.now ones.now n }
        ensures { size (checked_nodes self.now) n ≡ 1 → (j : ℕ) → j < length self.now.letters.now → bit result j ≡ leads_on ((course (checked_nodes self.now) n).step 0 (slice_index self.now.letters.now j)) }
    {
        match self.node(n) {
            Node::Nothing => 0,
            Node::Choice(start, count) => {
                self.ending_letters(starts, branches_at(self.file, start, count))
            }
            Node::Sequence(a, b) => ones_in_sequence(self.size_at(b), starts[b], ones[a], ones[b]),
            Node::Both(a, b) | Node::All(a, b) => ones[a] & ones[b],
            Node::Lap(a) => ones_in_lap(starts[a], ones[a]),
        }
    }

    /// Which letters lead on from the only place of each node of size 1, from where the walks start.
    pub(crate) fn ones(&self, starts: &[Outcome; MOST_NODES]) -> [u32; MOST_NODES]
        requires { StartsKept (checked_nodes self.now) starts.now }
        ensures { OnesKept (checked_nodes self.now) self.now.letters.now result }
    {
        let mut ones = [0; MOST_NODES];
        // By index, since a node's letters are read from those of the earlier ones in the array that they are written to.
        for n in 0..self.count() {
            ones[n] = self.ones_of(starts, &ones, n);
        }
        ones
    }
}

impl Course<'_> {
    /// Where the letters lead from the only place of a node.
    #[tactic(auto, using(crate::proofs::Grounding::few_nodes))]
    pub(crate) fn row_of_one(&self, n: usize, out: &mut [Outcome; MOST_LETTERS])
        requires within { n < length (nodes_of self.now) }
        requires one { size (nodes_of self.now) n ≡ 1 }
        ensures { Row self.now n 0 out.new }
    {
        let on = match self.checked.node(n) {
            Node::Lap(_) | Node::All(_, _) => Outcome::At(0),
            _ => Outcome::Done,
        };
        let ones = self.ones[n];
        for (j, outcome) in out.iter_mut().enumerate() {
            *outcome = led(is_set(ones, j), on);
        }
    }
}
