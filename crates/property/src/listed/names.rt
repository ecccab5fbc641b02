ghost use Rattle.std.specs.Prelude.{◌≡◌, ℕ, Bool};
ghost use Rattle.std.specs.List.{list_all};
ghost use Rattle.property.specs.Checks.{names, named_earlier, named_kinds};
ghost use Rattle.property.specs.Meant.{meant, listed};
ghost use Rattle.property.specs.Nodes.{node, is_loop, is_nothing};

use crate::branches::{branches_at, number_of};
use crate::listed::Listed;
use crate::node::Node;
use records::body::BRANCH_BYTES;

impl Listed<'_> {
    /// Whether a number names a node of kind 6 or 7.
    pub(crate) fn names_loop(&self, number: usize) -> bool
        ensures { result ≡ is_loop (node (listed self.now) number) }
    {
        self.nodes
            .get(number)
            .is_some_and(|node| matches!(*node, Node::Lap(_) | Node::All(_, _)))
    }

    /// Whether a number names no other node than one of kind 2.
    pub(crate) fn names_nothing(&self, number: usize) -> bool
        ensures { result ≡ is_nothing (node (listed self.now) number) }
    {
        self.nodes
            .get(number)
            .is_none_or(|node| matches!(*node, Node::Nothing))
    }

    /// Whether each number that a node names passes a test.
    fn names_all<F: Fn(usize) -> bool>(&self, node: Node, test: F) -> bool
        requires { F.IsAlwaysCallable test }
        ensures { (P : ℕ → Bool) → ((m : ℕ) (b : Bool) → F.post test m b → b ≡ P m) → result ≡ list_all P (names (meant self.now.file.now node)) }
    {
        match node {
            Node::Nothing => true,
            Node::Choice(start, count) => branches_at(self.file, start, count)
                .chunks_exact(BRANCH_BYTES)
                .map(number_of)
                .all(test),
            Node::Sequence(a, b) | Node::Both(a, b) | Node::All(a, b) => test(a) && test(b),
            Node::Lap(a) => test(a),
        }
    }

    /// Whether a node names nodes of the list alone.
    pub(crate) fn names_earlier(&self, node: Node) -> bool
        ensures { result ≡ named_earlier (listed self.now) (meant self.now.file.now node) }
    {
        let count = self.nodes.len();
        self.names_all(node, |number| number < count)
    }

    /// Whether an All names nodes of kinds 6 and 7 alone, and any other node those of kinds 2 to 5.
    pub(crate) fn names_kinds(&self, node: Node) -> bool
        ensures { result ≡ named_kinds (listed self.now) (meant self.now.file.now node) }
    {
        let loops = matches!(node, Node::All(_, _));
        self.names_all(node, |number| self.names_loop(number) == loops)
    }
}
