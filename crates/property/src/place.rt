ghost use Rattle.std.specs.Prelude.{◌≤◌};
ghost use Rattle.property.specs.Checks.{most_nodes};

use crate::node::{MOST_NODES, Node};

mod filling;
mod methods;

/// A lent place for the nodes of a property, which of them close, their sizes, and the offset of the file's last
/// record. A size over `MOST_SIZE` stands as one above it.
// Nodes, closings and sizes stand in arrays of their own, since each is lent to callers as one slice.
#[derive(Drop)]
pub struct Nodes {
    pub(crate) nodes: [Node; MOST_NODES],
    pub(crate) closing: [bool; MOST_NODES],
    pub(crate) sizes: [u16; MOST_NODES],
    pub(crate) count: usize,
    pub(crate) last: usize,
    ghost within: { count ≤ most_nodes },
}
