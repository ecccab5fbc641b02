ghost use Rattle.std.specs.Prelude.{◌≡◌, ℕ, ◌<◌, false, length, slice_index_or};
ghost use Rattle.property.specs.Checks.{most_nodes};
ghost use Rattle.property.specs.Placed.{stored, nodes_in, closing_in, sizes_in, Emptied};
ghost use Rattle.property.specs.Sized.{MarksAlso, named_before};
ghost use Rattle.property.specs.Sizes.{in_family};

use crate::listed::Listed;
use crate::node::{MOST_NODES, Node};
use crate::place::Nodes;

impl Nodes {
    /// A place with no nodes.
    pub fn new() -> Self
        ensures { Emptied result }
    {
        Nodes {
            nodes: [Node::Nothing; MOST_NODES],
            closing: [false; MOST_NODES],
            sizes: [0; MOST_NODES],
            count: 0,
            last: 0,
        }
    }

    /// The nodes in file order.
    pub fn nodes(&self) -> &[Node]
        ensures value { result.now ≡ stored self.now }
        ensures len { length result.now ≡ self.now.count }
    {
        &self.nodes[0..self.count]
    }

    /// Whether each of the nodes closes.
    pub fn closing(&self) -> &[bool]
        ensures { result.now ≡ closing_in self.now }
    {
        &self.closing[0..self.count]
    }

    /// The size of each of the nodes, or one above `MOST_SIZE` where it is larger.
    pub fn sizes(&self) -> &[u16]
        ensures { result.now ≡ sizes_in self.now }
    {
        &self.sizes[0..self.count]
    }

    /// The nodes with their file.
    pub(crate) fn listed<'a>(&'a self, file: &'a [u8]) -> Listed<'a>
        ensures file { result.file.now ≡ file.now }
        ensures nodes { result.nodes.now ≡ stored self.now }
        ensures len { length result.nodes.now ≡ self.now.count }
    {
        Listed {
            file,
            nodes: self.nodes(),
        }
    }

    /// Marks the family of a node, and nothing else.
    pub fn mark_family(&self, file: &[u8], n: usize, marked: &mut [bool; MOST_NODES])
        ensures { (m : ℕ) → m < most_nodes → slice_index_or marked.new m false ≡ in_family (nodes_in file.now self.now) n m }
    {
        self.listed(file).mark_family(n, marked);
    }

    /// Marks also the earlier nodes that a node names by branches, if it is marked itself.
    pub fn mark_named(&self, file: &[u8], n: usize, marked: &mut [bool; MOST_NODES])
        ensures { MarksAlso (λ m. named_before (nodes_in file.now self.now) marked.old n m) marked.old marked.new }
    {
        self.listed(file).mark_named(n, marked);
    }

    /// The offset of the last record of the file.
    pub fn last_offset(&self) -> usize
        ensures { result ≡ self.now.last }
    {
        self.last
    }
}
