ghost use Rattle.std.specs.Prelude.{◌≡◌, ◌<◌};
ghost use Rattle.property.specs.Traces.{last_node};
ghost use Rattle.synthesis.specs.Courses.{PlaceOf, Row, letters_of, loop_of, nodes_of};
ghost use Rattle.synthesis.specs.Drawn.{Line, cell_of};

use crate::course::Course;
use crate::course::outcomes::{after_first, change_all, lapped, meet_all, shifted};
use letters::alphabet::MOST_LETTERS;
use letters::letter::Letter;
use places::outcome::Outcome;
use property::node::Node;
use rules::table::NO_ROW;

/// What a cell holds of an outcome: its place, or `NO_ROW`.
// A number, and not an Option, since whole lines of cells are copied into the table's memory.
fn cell_of(outcome: Outcome) -> u16
    ensures { result ≡ cell_of outcome }
{
    match outcome {
        Outcome::At(place) => place,
        Outcome::Dead | Outcome::Done => NO_ROW,
    }
}

impl Course<'_> {
    /// Where the letters lead from a place of a node.
    fn row(&self, n: usize, place: u16, out: &mut [Outcome; MOST_LETTERS])
        requires { PlaceOf self.now n place }
        ensures { Row self.now n place out.new }
    {
        if self.checked.size_at(n) == 1 {
            return self.row_of_one(n, out);
        }
        match self.checked.node(n) {
            Node::Nothing => {}
            Node::Choice(_, _) => {
                if let Some((m, offset)) = self.row_of_choice(n, place, out) {
                    self.row(m, place - offset, out);
                    change_all(out, |outcome| shifted(offset, outcome));
                }
            }
            Node::Sequence(a, b) => {
                let size = self.checked.size_at(b);
                if place < size {
                    return self.row(b, place, out);
                }
                self.row(a, place - size, out);
                let second = self.starts[b];
                change_all(out, |first| after_first(size, second, first));
            }
            Node::Both(a, b) | Node::All(a, b) => {
                let size = self.checked.size_at(b);
                let mut others = [Outcome::Dead; MOST_LETTERS];
                self.row(a, place / size, out);
                self.row(b, place % size, &mut others);
                meet_all(size, out, &others);
            }
            Node::Lap(a) => {
                self.row(a, place, out);
                let start = self.starts[a];
                change_all(out, |outcome| lapped(start, outcome));
            }
        }
    }

    /// The letters of the alphabet.
    pub(crate) fn letters(&self) -> &[Letter]
        ensures { result.now ≡ letters_of self.now }
    {
        self.checked.letters
    }

    /// The number of the property's node.
    fn root(&self) -> usize
        ensures { result ≡ last_node (nodes_of self.now) }
    {
        self.checked.count() - 1
    }

    /// How many places the property has.
    pub(crate) fn size(&self) -> u16
        ensures { result ≡ (loop_of self.now).size }
    {
        self.checked.size_at(self.root())
    }

    /// The boundary of the property's loop.
    pub(crate) fn boundary(&self) -> u16
        ensures { result ≡ (loop_of self.now).boundary }
    {
        match self.starts[self.root()] {
            Outcome::At(place) => place,
            Outcome::Dead | Outcome::Done => unreachable!(),
        }
    }

    /// The place that each letter leads to from a place of the property's loop, or `NO_ROW`.
    pub(crate) fn line(&self, place: u16, cells: &mut [u16; MOST_LETTERS])
        requires { place < (loop_of self.now).size }
        ensures { Line (loop_of self.now) (letters_of self.now) place cells.new }
    {
        let mut out = [Outcome::Dead; MOST_LETTERS];
        self.row(self.root(), place, &mut out);
        // By number, as where two nodes' outcomes meet.
        for (j, cell) in cells.iter_mut().enumerate() {
            *cell = cell_of(out[j]);
        }
    }
}
