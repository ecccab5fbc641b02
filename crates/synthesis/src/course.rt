ghost use Rattle.property.specs.Placed.{nodes_in};
ghost use Rattle.synthesis.specs.Kept.{Grounds, OnesKept, StartsKept};
ghost use Rattle.synthesis.specs.Unique.{Grounds-prop, OnesKept-prop, StartsKept-prop};

use letters::letter::Letter;
use places::outcome::Outcome;
use property::node::MOST_NODES;
use property::place::Nodes;

pub(crate) mod checked;
pub(crate) mod family;
pub(crate) mod ones;
pub(crate) mod outcomes;
pub(crate) mod row;
pub(crate) mod starts;

/// A file that passed the checks and of which a table can be filled, with the place of its nodes and the letters of its
/// alphabet.
#[derive(Drop)]
pub(crate) struct CheckedFile<'a> {
    pub(crate) file: &'a [u8],
    pub(crate) nodes: &'a Nodes,
    pub(crate) letters: &'a [Letter],
    ghost grounds: { Grounds file.now nodes.now letters.now } by { Grounds-prop file.now nodes.now letters.now },
}

/// The walks of a file's nodes, with what is worked out once: where each starts, and which letters lead on from the only
/// place of a node of size 1, a bit for each letter of the alphabet in order.
// Two arrays by a node's number beside the nodes that are lent, since the core uses no heap. A node's letters are the bits of
// one number, which takes four bytes in place of 32, and two sets meet by one `&`.
#[derive(Drop)]
pub(crate) struct Course<'a> {
    pub(crate) checked: CheckedFile<'a>,
    pub(crate) starts: [Outcome; MOST_NODES],
    pub(crate) ones: [u32; MOST_NODES],
    ghost starts_kept: { StartsKept (nodes_in checked.file.now checked.nodes.now) starts } by { StartsKept-prop (nodes_in checked.file.now checked.nodes.now) starts },
    ghost ones_kept: { OnesKept (nodes_in checked.file.now checked.nodes.now) checked.letters.now ones } by { OnesKept-prop (nodes_in checked.file.now checked.nodes.now) checked.letters.now ones },
}
