ghost use Rattle.std.specs.Prelude.{zip, ◌≡◌, ℕ, ◌+◌, ◌*◌, ◌<◌, length, slice_index_or};
ghost use Rattle.property.specs.Meant.{listed};
ghost use Rattle.property.specs.Placed.{closing_in, nodes_in, sizes_in, sizes_of, stored};
ghost use Rattle.property.specs.Sized.{NamesEarlier, Kept, FamilyTestIsExact, counted, cut, marked_sum};
ghost use Rattle.property.specs.Sizes.{size};

use crate::listed::Listed;
use crate::node::{MOST_NODES, Node};
use crate::place::Nodes;

/// The largest size of a node that is kept as it is; one above it stands for every larger size.
pub const MOST_SIZE: u16 = 1024;

/// A size as it is kept.
fn kept_size(whole: u32) -> u16
    ensures { result ≡ cut whole }
{
    // A cast, since the bound shows that it loses nothing, and `try_from` would leave an error to rule out.
    whole.min(u32::from(MOST_SIZE + 1)) as u16
}

/// The sum of two sizes.
fn sum(a: u16, b: u16) -> u16
    ensures { result ≡ cut (a + b) }
{
    kept_size(u32::from(a) + u32::from(b))
}

/// The product of two sizes.
fn product(a: u16, b: u16) -> u16
    ensures { result ≡ cut (a * b) }
{
    kept_size(u32::from(a) * u32::from(b))
}

/// What a node counts in a family: a Choice 1, any other its size.
pub fn weight_of(node: Node, own: u16) -> u16
    ensures { result ≡ counted node own }
{
    match node {
        Node::Choice(_, _) => 1,
        _ => own,
    }
}

/// What the marked nodes count together.
fn add_marked(nodes: &[Node], sizes: &[u16], marked: &[bool]) -> u16
    ensures { result ≡ marked_sum (zip (zip nodes.now sizes.now) marked.now) }
{
    nodes
        .iter()
        .zip(sizes)
        .zip(marked)
        .fold(0, |total, ((node, own), is_marked)| {
            if *is_marked {
                sum(total, weight_of(*node, *own))
            } else {
                total
            }
        })
}

impl Listed<'_> {
    /// The size of a Choice after the nodes with these sizes: what its family counts together, each node once.
    fn family_size(&self, sizes: &[u16]) -> u16
        requires { Kept (listed self.now) sizes.now (length sizes.now) }
        ensures { (start count : ℕ) → slice_index_or self.now.nodes.now (length sizes.now) Node.Nothing ≡ Node.Choice start count → result ≡ cut (size (listed self.now) (length sizes.now)) }
    {
        let mut marked = [false; MOST_NODES];
        self.mark_family(sizes.len(), &mut marked);
        sum(add_marked(self.nodes, sizes, &marked), 1)
    }

    /// The size of the node after the nodes with these sizes.
    fn size_of(&self, node: Node, sizes: &[u16]) -> u16
        requires earlier { NamesEarlier (listed self.now) }
        requires next { slice_index_or self.now.nodes.now (length sizes.now) Node.Nothing ≡ node }
        requires kept { Kept (listed self.now) sizes.now (length sizes.now) }
        ensures { result ≡ cut (size (listed self.now) (length sizes.now)) }
    {
        match node {
            Node::Nothing => 0,
            Node::Choice(_, _) => self.family_size(sizes),
            Node::Sequence(a, b) => sum(sizes[a], sizes[b]),
            Node::Both(a, b) | Node::All(a, b) => product(sizes[a], sizes[b]),
            Node::Lap(a) => sizes[a].max(1),
        }
    }
}

impl Nodes {
    /// Works out the sizes of the nodes.
    pub(crate) fn measure(&mut self, file: &[u8])
        requires { NamesEarlier (nodes_in file.now self.old) }
        ensures sizes { sizes_in self.new ≡ sizes_of (nodes_in file.now self.old) }
        ensures stored { stored self.new ≡ stored self.old }
        ensures closing { closing_in self.new ≡ closing_in self.old }
        ensures last { self.new.last ≡ self.old.last }
    {
        let listed = self.listed(file);
        let mut sizes = [0; MOST_NODES];
        // By number, since a size is worked out from those before it in the same array.
        for (n, node) in listed.nodes.iter().enumerate() {
            sizes[n] = listed.size_of(*node, &sizes[..n]);
        }
        self.sizes = sizes;
    }
}

/// The test of a family tells exactly the nodes that branches alone reach.
pub fn families_stand()
    ensures { FamilyTestIsExact }
{}
