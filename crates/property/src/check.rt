ghost use Rattle.std.specs.Prelude.{◌≡◌, ℕ, ◌+◌, ◌^◌, ◌<◌, ◌≤◌, true, List, [], ◌++◌, length, take, drop, OnOk};
ghost use Rattle.letters.specs.Alphabets.{bare};
ghost use Rattle.records.specs.Records.{kind_of, body_of, suits, header_bytes};
ghost use Rattle.records.specs.Readers.{item_of};
ghost use Rattle.records.specs.Readings.{reading};
ghost use Rattle.property.specs.Checks.{letters_in_order, lap_closes, node_fault, barred_next, judge, has_property, checked};
ghost use Rattle.property.specs.Drafts.{declared_in, parts_of, parts, with_parts, refused, Kept};
ghost use Rattle.property.specs.Meant.{meant, listed};
ghost use Rattle.property.specs.Nodes.{node_of};
ghost use Rattle.property.specs.Placed.{nodes_in, closing_in, closings, last_offset, Emptied, answer, AlphabetAfter, PlaceAfter};

use crate::branches::{branches_at, first_out};
use crate::declared::Declared;
use crate::fault::PropertyFault;
use crate::listed::Listed;
use crate::listed::closing::lap_closes;
use crate::node::{MOST_NODES, Node};
use crate::place::Nodes;
use letters::alphabet::Alphabet;
use letters::letter::Letter;
use records::body::{branch_count, two_bytes};
use records::reader::{HEADER_BYTES, Reader};
use records::record::Record;

/// The node that a record of kinds 2 to 7 stands for, where the record's offset is `at`.
fn node_of(item: Record, at: usize) -> Node
    requires kind { 2 ≤ kind_of item }
    requires suited { suits (kind_of item) (length (body_of item)) ≡ true }
    requires room { at + header_bytes < 2 ^ 64 }
    ensures { (file : List ℕ) → body_of item.entry ≡ take (length (body_of item.entry)) (drop (at + header_bytes) file) → meant file result ≡ node_of (kind_of item.entry) (body_of item.entry) }
{
    match item {
        Record::Letter(_) | Record::Nothing(_) => Node::Nothing,
        Record::Choice(body) => Node::Choice(at + HEADER_BYTES, branch_count(body)),
        Record::Sequence(body) => Node::Sequence(
            two_bytes(body[0], body[1]),
            two_bytes(body[2], body[3]),
        ),
        Record::Both(body) => Node::Both(two_bytes(body[0], body[1]), two_bytes(body[2], body[3])),
        Record::Lap(body) => Node::Lap(two_bytes(body[0], body[1])),
        Record::All(body) => Node::All(two_bytes(body[0], body[1]), two_bytes(body[2], body[3])),
    }
}

impl Listed<'_> {
    /// Whether the letters of a Choice ascend and are in the alphabet of the letters declared.
    fn letters_in_order(&self, declared: &[Letter], node: Node) -> bool
        ensures { result ≡ letters_in_order (declared.now ++ bare) (meant self.now.file.now node) }
    {
        match node {
            Node::Choice(start, count) => {
                first_out(declared, branches_at(self.file, start, count)).is_none()
            }
            _ => true,
        }
    }

    /// Whether a node passes the checks after the earlier ones.
    fn check_node(
        &self,
        closing: &[bool],
        declared: &[Letter],
        node: Node,
        at: usize,
    ) -> Result<(), PropertyFault>
        requires { Kept (listed self.now) closing.now }
        ensures { result ≡ refused (node_fault (parts declared.now (listed self.now)) (meant self.now.file.now node) at) }
    {
        if self.nodes.len() >= MOST_NODES {
            return Err(PropertyFault::TooManyNodes(at));
        }
        if !self.names_earlier(node) {
            return Err(PropertyFault::NotEarlier(at));
        }
        if !self.names_kinds(node) {
            return Err(PropertyFault::WrongKind(at));
        }
        if !self.letters_in_order(declared, node) {
            return Err(PropertyFault::BranchLetter(at));
        }
        if !lap_closes(closing, node) {
            return Err(PropertyFault::OpenLap(at));
        }
        Ok(())
    }
}

/// Whether a byte may not be declared next.
fn is_barred_next(place: &Nodes, declared: &Declared, byte: Letter) -> bool
    ensures { (file : List ℕ) → result ≡ barred_next (parts_of file declared.now place.now) byte }
{
    !place.nodes().is_empty() || declared.bars(byte)
}

/// Takes a record on: a letter, or a node.
fn take_on(
    file: &[u8],
    place: &mut Nodes,
    declared: &mut Declared,
    item: Record,
    at: usize,
) -> Result<(), PropertyFault>
    requires kept { Kept (nodes_in file.now place.old) (closing_in place.old) }
    requires suited { suits (kind_of item) (length (body_of item)) ≡ true }
    requires part { body_of item ≡ take (length (body_of item)) (drop (at + header_bytes) file.now) }
    requires room { at + header_bytes < 2 ^ 64 }
    ensures judged { with_parts result (parts_of file.now declared.new place.new) ≡ judge (parts_of file.now declared.old place.old) (item_of (item.entry, at)) }
    ensures kept { Kept (nodes_in file.now place.new) (closing_in place.new) }
{
    if let Record::Letter(body) = item {
        let byte = body[0];
        if is_barred_next(place, declared, byte) {
            return Err(PropertyFault::Declaration(at));
        }
        declared.push(byte);
        return Ok(());
    }
    let node = node_of(item, at);
    let listed = place.listed(file);
    listed.check_node(place.closing(), declared.letters(), node, at)?;
    let closing = listed.closes(place.closing(), node);
    place.push(node, closing);
    Ok(())
}

/// Whether there is a node, and the last is of kind 6 or 7.
fn ends_in_loop(place: &Nodes) -> bool
    ensures { (file letters : List ℕ) → result ≡ has_property (parts letters (nodes_in file place.now)) }
{
    matches!(place.nodes().last(), Some(Node::Lap(_) | Node::All(_, _)))
}

/// Reads a property file into an empty place.
fn fill(file: &[u8], place: &mut Nodes, declared: &mut Declared) -> Result<(), PropertyFault>
    requires empty { Emptied place.old }
    requires fresh { declared_in declared.old ≡ [] }
    ensures answer { with_parts result (parts_of file.now declared.new place.new) ≡ checked file.now }
    ensures closing { OnOk result (closing_in place.new ≡ closings (nodes_in file.now place.new)) }
    ensures last { OnOk result (place.new.last ≡ last_offset 0 (reading file.now).items) }
{
    let mut reader = Reader::open(file)?;
    while let Some((item, at)) = reader.next()? {
        take_on(file, place, declared, item, at)?;
        place.last = at;
    }
    if !ends_in_loop(place) {
        return Err(PropertyFault::NoProperty(file.len()));
    }
    Ok(())
}

/// Reads a property file: its alphabet and its nodes are written whole on success; a refusal leaves the alphabet as it
/// was, and the place empty.
pub fn read_property(
    file: &[u8],
    alphabet: &mut Alphabet,
    place: &mut Nodes,
) -> Result<(), PropertyFault>
    ensures answer { result ≡ answer (checked file.now) }
    ensures letters { AlphabetAfter (checked file.now) alphabet.old alphabet.new }
    ensures nodes { PlaceAfter file.now (checked file.now) place.new }
{
    let mut declared = Declared::new();
    place.clear();
    if let Err(fault) = fill(file, place, &mut declared) {
        place.clear();
        return Err(fault);
    }
    place.measure(file);
    match alphabet.declare(declared.letters()) {
        Ok(()) => Ok(()),
        Err(_) => unreachable(),
    }
}
