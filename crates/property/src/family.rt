//! The marks of a family, for any list of nodes: a branch counts only where it names an earlier node.
ghost use Rattle.std.specs.Prelude.{◌≡◌, ℕ, ◌<◌, ◌≤◌, true, false, length, ◌==◌, slice_index_or};
ghost use Rattle.property.specs.Checks.{most_nodes};
ghost use Rattle.property.specs.Meant.{listed};
ghost use Rattle.property.specs.Nodes.{branches};
ghost use Rattle.property.specs.Sized.{MarksAlso, named_before, names_before};
ghost use Rattle.property.specs.Sizes.{in_family};

use crate::branches::{branches_at, number_of};
use crate::listed::Listed;
use crate::node::{MOST_NODES, Node};
use records::body::BRANCH_BYTES;

/// Marks the nodes before `end`, which is marked, that the branches in a body name.
fn mark_branches_before(body: &[u8], end: usize, marked: &mut [bool])
    requires within { end < length marked.old }
    requires itself { slice_index_or marked.old end false ≡ true }
    ensures { MarksAlso (names_before (branches body.now) end) marked.old marked.new }
{
    for branch in body.chunks_exact(BRANCH_BYTES) {
        // No test, which would cost more than a mark: a branch that names no node before `end` marks `end` once more.
        marked[number_of(branch).min(end)] = true;
    }
}

/// Marks one node, and no other.
fn mark_alone(n: usize, marked: &mut [bool])
    ensures { (m : ℕ) → m < length marked.new → slice_index_or marked.new m false ≡ (n == m) }
{
    marked.fill(false);
    if n < marked.len() {
        marked[n] = true;
    }
}

impl Listed<'_> {
    /// Marks the earlier nodes that a node names by branches, if it is marked itself.
    pub(crate) fn mark_named(&self, n: usize, marked: &mut [bool; MOST_NODES])
        ensures { MarksAlso (λ m. named_before (listed self.now) marked.old n m) marked.old marked.new }
    {
        if let Some(Node::Choice(start, count)) = self.nodes.get(n) {
            if marked[n] {
                mark_branches_before(branches_at(self.file, *start, *count), n, marked);
            }
        }
    }

    /// Marks the family of a node, and nothing else.
    pub(crate) fn mark_family(&self, n: usize, marked: &mut [bool; MOST_NODES])
        ensures { (m : ℕ) → m < most_nodes → slice_index_or marked.new m false ≡ in_family (listed self.now) n m }
    {
        mark_alone(n, marked);
        if n < self.nodes.len() {
            // By number, and not along a slice: each step may mark any of the nodes still to come.
            for m in (0..n + 1).rev() {
                self.mark_named(m, marked);
            }
        }
    }
}
