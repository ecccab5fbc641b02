use crate::check::read_property;
use crate::fault::PropertyFault;
use crate::node::Node;
use crate::place::Nodes;
use letters::alphabet::Alphabet;
use letters::letter::{END, Letter, TICK};
use letters::refusal::Report;
use std::alloc::{AllocError, Global};
use std::process::Abort;
use std::test::Fail;

const NOTHING: [u8; 4] = [0, 0, 2, 0];

/// Nothing, a Choice that ends the cycle, and a Lap over it: 17 bytes, nodes 0 to 2.
const IDLE: [u8; 17] = [0, 0, 2, 0, 3, 0, 3, 0, END, 0, 0, 2, 0, 6, 0, 1, 0];

fn letter(byte: Letter) -> [u8; 5] {
    [1, 0, 1, 0, byte]
}

fn choice(letter: Letter, node: u8) -> [u8; 7] {
    [3, 0, 3, 0, letter, node, 0]
}

fn sequence(a: u8, b: u8) -> [u8; 8] {
    [4, 0, 4, 0, a, 0, b, 0]
}

fn lap(a: u8) -> [u8; 6] {
    [2, 0, 6, 0, a, 0]
}

fn all(a: u8, b: u8) -> [u8; 8] {
    [4, 0, 7, 0, a, 0, b, 0]
}

fn joined(heap: Global, first: &[u8], second: &[u8]) -> Result<Vec<u8>, AllocError> {
    let mut file = Vec::new(heap);
    file.extend_from_slice(first)?;
    file.extend_from_slice(second)?;
    Ok(file)
}

/// Expects a file to be taken, with so many letters declared, nodes, and a last record at an offset.
fn takes(rt: &impl Abort, file: &[u8], declared: usize, nodes: usize, last: usize) {
    let mut alphabet = Alphabet::new();
    let mut place = Nodes::new();
    assert_eq!(rt; read_property(file, &mut alphabet, &mut place), Ok(()));
    assert_eq!(rt; alphabet.letters().len(), declared.saturating_add(2));
    assert_eq!(rt; place.nodes().len(), nodes);
    assert_eq!(rt; place.closing().len(), nodes);
    assert_eq!(rt; place.last_offset(), last);
}

/// Expects a fault; the alphabet stays as it was, and the place is emptied.
fn refuses(rt: &impl Abort, file: &[u8], fault: PropertyFault) {
    let mut alphabet = Alphabet::new();
    assert!(rt; alphabet.declare(&[7, 9]).is_ok());
    let mut place = Nodes::new();
    let mut other = Alphabet::new();
    assert_eq!(rt; read_property(&IDLE, &mut other, &mut place), Ok(()));
    assert_eq!(rt; read_property(file, &mut alphabet, &mut place), Err(fault));
    assert_eq!(rt; alphabet.letters(), [7, 9, TICK, END].as_slice());
    assert!(rt; place.nodes().is_empty() && place.closing().is_empty());
    assert_eq!(rt; place.last_offset(), 0);
}

/// Expects a record after the idle property to get a fault.
fn refuses_after(
    rt: &impl Abort,
    heap: Global,
    record: &[u8],
    fault: PropertyFault,
) -> Result<(), Fail> {
    refuses(rt, joined(heap, &IDLE, record)?.as_slice(), fault);
    Ok(())
}

#[test]
fn idle(rt: HostRuntime) {
    let mut alphabet = Alphabet::new();
    let mut place = Nodes::new();
    assert_eq!(rt; read_property(&IDLE, &mut alphabet, &mut place), Ok(()));
    let nodes = [Node::Nothing, Node::Choice(8, 1), Node::Lap(1)];
    assert_eq!(rt; place.nodes(), nodes.as_slice());
    assert_eq!(rt; place.closing(), [false, true, false].as_slice());
    assert_eq!(rt; place.last_offset(), 11);
    assert_eq!(rt; alphabet.letters(), [TICK, END].as_slice());
}

#[test]
fn declarations(rt: HostRuntime) -> Result<(), Fail> {
    let heap = rt.alloc();
    let mut file = Vec::new(heap);
    for byte in 0..30u8 {
        file.extend_from_slice(&letter(byte))?;
    }
    let full = joined(heap, file.as_slice(), &IDLE)?;
    takes(&rt, full.as_slice(), 30, 3, 161);
    file.extend_from_slice(&letter(30))?;
    refuses(&rt, file.as_slice(), PropertyFault::Declaration(150));
    refuses_after(&rt, heap, &letter(96), PropertyFault::Declaration(17))?;
    refuses(&rt, &letter(TICK), PropertyFault::Declaration(0));
    let twice = joined(heap, &letter(96), &letter(96))?;
    refuses(&rt, twice.as_slice(), PropertyFault::Declaration(5));
    Ok(())
}

#[test]
fn number_of_nodes(rt: HostRuntime) -> Result<(), Fail> {
    let heap = rt.alloc();
    let mut file = joined(heap, &NOTHING, &choice(END, 0))?;
    for _ in 0..253 {
        file.extend_from_slice(&NOTHING)?;
    }
    let full = joined(heap, file.as_slice(), &lap(1))?;
    takes(&rt, full.as_slice(), 0, 256, 1023);
    file.extend_from_slice(&NOTHING)?;
    let over = joined(heap, file.as_slice(), &lap(1))?;
    refuses(&rt, over.as_slice(), PropertyFault::TooManyNodes(1027));
    Ok(())
}

#[test]
fn names(rt: HostRuntime) -> Result<(), Fail> {
    let heap = rt.alloc();
    refuses(&rt, &choice(END, 0), PropertyFault::NotEarlier(0));
    refuses_after(&rt, heap, &lap(3), PropertyFault::NotEarlier(17))?;
    refuses_after(&rt, heap, &sequence(1, 3), PropertyFault::NotEarlier(17))?;
    refuses_after(&rt, heap, &sequence(4, 1), PropertyFault::NotEarlier(17))?;
    refuses_after(&rt, heap, &lap(2), PropertyFault::WrongKind(17))?;
    refuses_after(&rt, heap, &sequence(1, 2), PropertyFault::WrongKind(17))?;
    refuses_after(&rt, heap, &choice(END, 2), PropertyFault::WrongKind(17))?;
    refuses_after(&rt, heap, &all(2, 1), PropertyFault::WrongKind(17))?;
    let two_laps = joined(heap, &IDLE, &all(2, 2))?;
    takes(&rt, two_laps.as_slice(), 0, 4, 17);
    Ok(())
}

#[test]
fn branch_letters(rt: HostRuntime) -> Result<(), Fail> {
    let heap = rt.alloc();
    refuses_after(&rt, heap, &choice(97, 1), PropertyFault::BranchLetter(17))?;
    let equal = [6, 0, 3, 0, END, 0, 0, END, 0, 0];
    refuses_after(&rt, heap, &equal, PropertyFault::BranchLetter(17))?;
    let falling = [6, 0, 3, 0, END, 0, 0, TICK, 1, 0];
    refuses_after(&rt, heap, &falling, PropertyFault::BranchLetter(17))?;
    let rising = [6, 0, 3, 0, TICK, 1, 0, END, 0, 0, 2, 0, 6, 0, 3, 0];
    let file = joined(heap, &IDLE, &rising)?;
    takes(&rt, file.as_slice(), 0, 5, 27);
    Ok(())
}

#[test]
fn closing_and_last(rt: HostRuntime) -> Result<(), Fail> {
    let heap = rt.alloc();
    refuses_after(&rt, heap, &lap(0), PropertyFault::OpenLap(17))?;
    refuses(&rt, &[], PropertyFault::NoProperty(0));
    refuses_after(&rt, heap, &choice(END, 0), PropertyFault::NoProperty(24))?;
    let first_open = joined(heap, &sequence(1, 0), &lap(3))?;
    refuses_after(&rt, heap, first_open.as_slice(), PropertyFault::OpenLap(25))
}

/// Expects a report.
fn reports(rt: &impl Abort, file: &[u8], layer: u8, number: u8, offset: usize) -> Result<(), Fail> {
    let mut alphabet = Alphabet::new();
    let mut place = Nodes::new();
    let Err(fault) = read_property(file, &mut alphabet, &mut place) else {
        return Err(Fail::new("the file is taken"));
    };
    let report = Report {
        layer,
        number,
        offset,
    };
    assert_eq!(rt; fault.report(), report);
    Ok(())
}

#[test]
fn order(rt: HostRuntime) -> Result<(), Fail> {
    let heap = rt.alloc();
    let unnamed = joined(heap, &IDLE, &all(1, 3))?;
    reports(&rt, unnamed.as_slice(), 2, 7, 17)?;
    let looped = joined(heap, &IDLE, &choice(97, 2))?;
    reports(&rt, looped.as_slice(), 2, 8, 17)?;
    let open = joined(heap, &IDLE, &lap(2))?;
    reports(&rt, open.as_slice(), 2, 8, 17)?;
    let mut letters = joined(heap, &NOTHING, &choice(97, 0))?;
    letters.extend_from_slice(&[0, 0, 9, 0])?;
    reports(&rt, letters.as_slice(), 2, 9, 4)?;
    let kinds = joined(heap, &[0, 0, 9, 0], &choice(97, 0))?;
    reports(&rt, kinds.as_slice(), 1, 3, 0)?;
    let cut = joined(heap, &NOTHING, &[2, 0, 6])?;
    reports(&rt, cut.as_slice(), 1, 2, 4)?;
    let long = vec![in heap; 7u8; 16_385]?;
    reports(&rt, long.as_slice(), 1, 1, 0)
}
