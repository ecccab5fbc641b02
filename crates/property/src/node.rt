/// The most nodes of a property.
pub const MOST_NODES: usize = 256;

/// A node of a property. A Choice has the place of its branches in the file, and their number; the others have the
/// numbers of the nodes that they name.
// Nodes are named by number, as the file names them. A Choice has no borrowed body, since that would tie the lent place to
// the file's life.
#[derive(Clone, Copy, PartialEq, Eq, Debug)]
pub enum Node {
    Nothing,
    Choice(usize, usize),
    Sequence(usize, usize),
    Both(usize, usize),
    Lap(usize),
    All(usize, usize),
}
