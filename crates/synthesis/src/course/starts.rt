ghost use Rattle.std.specs.Prelude.{◌≡◌, ◌<◌, length};
ghost use Rattle.property.specs.Sizes.{size};
ghost use Rattle.synthesis.specs.Courses.{Grounds, StartsBefore, StartsKept, checked_nodes, course};
ghost use Rattle.synthesis.specs.Outcomes.{Like, lap_start};

use crate::course::outcomes::{after_first, met};
use crate::course::{CheckedFile, Course};
use letters::letter::Letter;
use places::outcome::Outcome;
use property::node::{MOST_NODES, Node};
use property::place::Nodes;

/// Where a Lap starts, from where its node starts.
fn lap_start(start: Outcome) -> Outcome
    ensures { result ≡ lap_start start }
{
    match start {
        Outcome::At(_) => start,
        Outcome::Dead | Outcome::Done => Outcome::At(0),
    }
}

impl CheckedFile<'_> {
    /// Where the walk of a node starts, from the starts of the earlier ones.
    fn start_of(&self, starts: &[Outcome; MOST_NODES], n: usize) -> Outcome
        requires within { n < length (checked_nodes self.now) }
        requires kept { StartsBefore (checked_nodes self.now) starts.now n }
        ensures { Like (size (checked_nodes self.now) n) (course (checked_nodes self.now) n).start result }
    {
        match self.node(n) {
            Node::Nothing => Outcome::Done,
            Node::Choice(_, _) => Outcome::At(self.size_at(n) - 1),
            Node::Sequence(a, b) => after_first(self.size_at(b), starts[b], starts[a]),
            Node::Both(a, b) | Node::All(a, b) => met(self.size_at(b), starts[a], starts[b]),
            Node::Lap(a) => lap_start(starts[a]),
        }
    }

    /// Where the walk of each node starts.
    fn starts(&self) -> [Outcome; MOST_NODES]
        ensures { StartsKept (checked_nodes self.now) result }
    {
        let mut starts = [Outcome::Dead; MOST_NODES];
        // By index, since a start is read from the earlier ones of the array that it is written to.
        for n in 0..self.count() {
            starts[n] = self.start_of(&starts, n);
        }
        starts
    }
}

impl<'a> Course<'a> {
    /// The course over a file's nodes, with the letters of their alphabet.
    pub(crate) fn new(file: &'a [u8], nodes: &'a Nodes, letters: &'a [Letter]) -> Self
        requires { Grounds file.now nodes.now letters.now }
        ensures file { result.checked.file.now ≡ file.now }
        ensures nodes { result.checked.nodes.now ≡ nodes.now }
        ensures letters { result.checked.letters.now ≡ letters.now }
    {
        let checked = CheckedFile {
            file,
            nodes,
            letters,
        };
        let starts = checked.starts();
        let ones = checked.ones(&starts);
        Course {
            checked,
            starts,
            ones,
        }
    }
}
