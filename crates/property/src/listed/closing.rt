ghost use Rattle.std.specs.Prelude.{◌≡◌, ℕ, List, true, false, slice_index_or};
ghost use Rattle.property.specs.Checks.{named_earlier, lap_closes};
ghost use Rattle.property.specs.Closing.{branch_closes, closes_by};
ghost use Rattle.property.specs.Meant.{meant, listed};
ghost use Rattle.property.specs.Nodes as N;
ghost use Rattle.property.specs.Placed.{closings};

use crate::branches::{branches_at, number_of};
use crate::listed::Listed;
use crate::node::Node;
use letters::letter::{END, Letter};
use records::body::BRANCH_BYTES;

/// Whether a number names a node that closes.
fn names_closing(closing: &[bool], number: usize) -> bool
    ensures { result ≡ slice_index_or closing.now number false }
{
    closing.get(number).copied().unwrap_or(false)
}

/// Whether a Lap stands over a node that closes.
pub(crate) fn lap_closes(closing: &[bool], node: Node) -> bool
    ensures { (file : List ℕ) (nodes : List N.Node) → closing.now ≡ closings nodes → named_earlier nodes (meant file node) ≡ true → result ≡ lap_closes nodes (meant file node) }
{
    match node {
        Node::Lap(a) => names_closing(closing, a),
        _ => true,
    }
}

impl Listed<'_> {
    /// Whether a branch closes.
    fn branch_closes(&self, closing: &[bool], letter: Letter, number: usize) -> bool
        ensures { result ≡ branch_closes (listed self.now) (λ m. slice_index_or closing.now m false) (letter, number) }
    {
        names_closing(closing, number) || (letter == END && self.names_nothing(number))
    }

    /// Whether a node closes, where `closing` says so of the earlier nodes.
    pub(crate) fn closes(&self, closing: &[bool], node: Node) -> bool
        ensures { result ≡ closes_by (listed self.now) (λ m. slice_index_or closing.now m false) (meant self.now.file.now node) }
    {
        match node {
            Node::Choice(start, count) => branches_at(self.file, start, count)
                .chunks_exact(BRANCH_BYTES)
                .all(|branch| self.branch_closes(closing, branch[0], number_of(branch))),
            Node::Sequence(_, b) => names_closing(closing, b),
            Node::Both(a, b) => names_closing(closing, a) || names_closing(closing, b),
            Node::Nothing | Node::Lap(_) | Node::All(_, _) => false,
        }
    }
}
