use crate::plate::PLATE;
use letters::alphabet::Alphabet;
use letters::letter::{END, TICK};
use letters::refusal::Report;
use rules::rule::Rule;
use rules::table::{NO_ROW, Table};
use std::alloc::{AllocError, Global};
use std::process::Abort;
use std::test::Fail;
use synthesis::fault::SynthesisFault;
use synthesis::synthesize::synthesize;

/// A Lap over a Choice of letter 0 and then the end: nothing that may be inserted leads to an end.
const STRANDED: [u8; 29] = [
    1, 0, 1, 0, 0, 0, 0, 2, 0, 3, 0, 3, 0, END, 0, 0, 3, 0, 3, 0, 0, 1, 0, 2, 0, 6, 0, 2, 0,
];

/// What the memories hold before a call.
const OLD: u16 = 7;

/// A file of Sequences whose property has size 2 to the `doublings`, plus `more`.
fn doubled(heap: Global, doublings: u8, more: bool) -> Result<Vec<u8>, AllocError> {
    let mut file = Vec::new(heap);
    file.extend_from_slice(&[0, 0, 2, 0, 3, 0, 3, 0, END, 0, 0])?;
    for node in 1..=doublings {
        file.extend_from_slice(&[4, 0, 4, 0, node, 0, node, 0])?;
    }
    let mut last = doublings.saturating_add(1);
    if more {
        file.extend_from_slice(&[4, 0, 4, 0, last, 0, 1, 0])?;
        last = last.saturating_add(1);
    }
    file.extend_from_slice(&[2, 0, 6, 0, last, 0])?;
    Ok(file)
}

/// Whether each number of a memory is this one.
fn holds_only(memory: &[u16], number: u16) -> bool {
    memory.iter().all(|held| *held == number)
}

/// What a call of synthesis came to, and what it left in the alphabet and the memories that it was given.
#[derive(Drop)]
struct Made {
    answer: Result<usize, SynthesisFault>,
    alphabet: Alphabet,
    table: Vec<u16>,
    working: Vec<u16>,
}

impl Made {
    /// Makes a table in memories of these lengths, over an alphabet of other letters.
    fn of(heap: Global, file: &[u8], table: usize, working: usize) -> Result<Self, Fail> {
        let mut alphabet = Alphabet::new();
        alphabet.declare(&[7, 9])?;
        let mut table = vec![in heap; OLD; table]?;
        let mut working = vec![in heap; OLD; working]?;
        let answer = synthesize(
            file,
            &mut alphabet,
            table.as_mut_slice(),
            working.as_mut_slice(),
        );
        Ok(Made {
            answer,
            alphabet,
            table,
            working,
        })
    }
}

/// Expects a fault; the alphabet stays, and the memories then hold these numbers alone.
fn refuses(rt: &impl Abort, made: &Made, fault: SynthesisFault, left: (u16, u16)) {
    assert_eq!(rt; made.answer, Err(fault));
    assert_eq!(rt; made.alphabet.letters(), [7, 9, TICK, END].as_slice());
    assert!(rt; holds_only(made.table.as_slice(), left.0));
    assert!(rt; holds_only(made.working.as_slice(), left.1));
}

/// Expects a table of so many rows, which the table rule takes, with nothing after its rows and nothing in the working
/// memory.
fn makes(rt: &impl Abort, made: &Made, rows: usize) {
    assert_eq!(rt; made.answer, Ok(rows));
    assert!(rt; Table::new(&made.alphabet, made.table.as_slice(), rows).is_ok());
    let used = rows.saturating_mul(made.alphabet.letters().len().saturating_add(3));
    assert!(rt; made.table.iter().skip(used).all(|number| *number == NO_ROW));
    assert!(rt; holds_only(made.working.as_slice(), 0));
}

#[test]
fn memories_at_their_borders(rt: HostRuntime) -> Result<(), Fail> {
    let heap = rt.alloc();
    makes(&rt, &Made::of(heap, &PLATE, 45, 20)?, 5);
    makes(&rt, &Made::of(heap, &PLATE, 60, 21)?, 5);
    let table = SynthesisFault::TableMemory(65);
    refuses(&rt, &Made::of(heap, &PLATE, 44, 20)?, table, (OLD, OLD));
    refuses(&rt, &Made::of(heap, &PLATE, 0, 0)?, table, (OLD, OLD));
    let working = SynthesisFault::WorkingMemory(65);
    refuses(&rt, &Made::of(heap, &PLATE, 45, 19)?, working, (OLD, OLD));
    Ok(())
}

#[test]
fn sizes_at_their_border(rt: HostRuntime) -> Result<(), Fail> {
    let heap = rt.alloc();
    let largest = doubled(heap, 10, false)?;
    makes(&rt, &Made::of(heap, largest.as_slice(), 5120, 4096)?, 1024);
    let over = doubled(heap, 10, true)?;
    let fault = SynthesisFault::TooLarge(99);
    refuses(
        &rt,
        &Made::of(heap, over.as_slice(), 6000, 5000)?,
        fault,
        (OLD, OLD),
    );
    refuses(
        &rt,
        &Made::of(heap, over.as_slice(), 0, 0)?,
        fault,
        (OLD, OLD),
    );
    Ok(())
}

#[test]
fn stranded_beginnings(rt: HostRuntime) -> Result<(), Fail> {
    let heap = rt.alloc();
    let fault = SynthesisFault::Stuck(23);
    refuses(
        &rt,
        &Made::of(heap, &STRANDED, 100, 100)?,
        fault,
        (NO_ROW, 0),
    );
    let mut insertable = STRANDED;
    insertable[4] = 64;
    insertable[20] = 64;
    makes(&rt, &Made::of(heap, &insertable, 100, 100)?, 2);
    Ok(())
}

/// A product with a size of 0 is 0, however large the other factor: the property has the empty trace alone.
#[test]
fn no_traces(rt: HostRuntime) -> Result<(), Fail> {
    let heap = rt.alloc();
    let mut file = doubled(heap, 12, false)?;
    file.truncate(107);
    file.extend_from_slice(&[4, 0, 5, 0, 0, 0, 13, 0, 2, 0, 6, 0, 14, 0])?;
    let fault = SynthesisFault::Stuck(115);
    refuses(
        &rt,
        &Made::of(heap, file.as_slice(), 5, 4)?,
        fault,
        (NO_ROW, 0),
    );
    Ok(())
}

/// A fault of a lower layer passes up whole.
#[test]
fn lower_layers(rt: HostRuntime) -> Result<(), Fail> {
    let made = Made::of(rt.alloc(), &PLATE[..70], 45, 20)?;
    let report = Report {
        layer: 1,
        number: 2,
        offset: 65,
    };
    assert_eq!(rt; made.answer.map_err(|fault| fault.report()), Err(report));
    assert!(rt; holds_only(made.table.as_slice(), OLD));
    assert!(rt; holds_only(made.working.as_slice(), OLD));
    Ok(())
}
