ghost use Rattle.std.specs.Prelude.{◌≡◌, ◌<◌, [], ◌∷◌, ◌++◌, length};
ghost use Rattle.property.specs.Checks.{most_nodes};
ghost use Rattle.property.specs.Placed.{stored, closing_in, Emptied};

use crate::node::Node;
use crate::place::Nodes;

impl Nodes {
    /// Takes the nodes away.
    pub(crate) fn clear(&mut self)
        ensures { Emptied self.new }
    {
        self.count = 0;
        self.last = 0;
    }

    /// Puts a node after the others.
    pub(crate) fn push(&mut self, node: Node, closes: bool)
        requires { length (stored self.old) < most_nodes }
        ensures nodes { stored self.new ≡ stored self.old ++ node ∷ [] }
        ensures closing { closing_in self.new ≡ closing_in self.old ++ closes ∷ [] }
    {
        let count = self.count;
        self.nodes[count] = node;
        self.closing[count] = closes;
        self.count = count + 1;
    }
}
