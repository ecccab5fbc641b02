ghost use Rattle.std.specs.Prelude.{◌≡◌, ◌<◌, length};
ghost use Rattle.property.specs.Meant.{meant};
ghost use Rattle.property.specs.Nodes.{node};
ghost use Rattle.property.specs.Sized.{cut};
ghost use Rattle.property.specs.Sizes.{size};
ghost use Rattle.synthesis.specs.Courses.{checked_nodes};

use crate::course::CheckedFile;
use property::node::Node;

impl CheckedFile<'_> {
    /// How many nodes there are.
    pub(crate) fn count(&self) -> usize
        ensures { result ≡ length (checked_nodes self.now) }
    {
        self.nodes.nodes().len()
    }

    /// A node, by its number.
    pub(crate) fn node(&self, n: usize) -> Node
        requires { n < length (checked_nodes self.now) }
        ensures { node (checked_nodes self.now) n ≡ meant self.now.file.now result }
    {
        self.nodes.nodes()[n]
    }

    /// The size of a node, as it is kept.
    pub(crate) fn size_at(&self, n: usize) -> u16
        requires { n < length (checked_nodes self.now) }
        ensures { result ≡ cut (size (checked_nodes self.now) n) }
    {
        self.nodes.sizes()[n]
    }
}
