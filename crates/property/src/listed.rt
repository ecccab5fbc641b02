ghost use Rattle.std.specs.Prelude.{◌≤◌, length};
ghost use Rattle.property.specs.Checks.{most_nodes};

use crate::node::Node;

pub(crate) mod closing;
mod names;

/// Nodes, with the file that has the branches of their Choices.
#[derive(Clone, Copy)]
pub(crate) struct Listed<'a> {
    pub(crate) file: &'a [u8],
    pub(crate) nodes: &'a [Node],
    ghost few: { length nodes.now ≤ most_nodes },
}
