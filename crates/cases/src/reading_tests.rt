use crate::plate::PLATE;
use crate::reading::read_through;
use letters::letter::END;
use letters::refusal::Report;
use records::body::{Branch, branch_at, branch_count, number};
use records::fault::ReadFault;
use std::test::Fail;

/// Where the records of the plate property begin, and where the last ends.
const STARTS: [usize; 12] = [0, 5, 10, 15, 20, 24, 31, 38, 45, 55, 65, 71];

/// What reading the first bytes of the plate property comes to.
fn expected(length: usize) -> Result<usize, ReadFault> {
    if let Some(count) = STARTS.iter().position(|start| *start == length) {
        return Ok(count);
    }
    let begun = STARTS.iter().copied().filter(|start| *start < length).max();
    Err(ReadFault::CutOff(begun.unwrap_or(0)))
}

#[test]
fn every_cut(rt: HostRuntime) {
    for length in 0..=PLATE.len() {
        assert_eq!(rt; read_through(&PLATE[..length]), expected(length));
    }
}

/// Whether a body of this length suits a kind.
fn suits(kind: u8, length: u8) -> bool {
    match kind {
        1 => length == 1,
        2 => length == 0,
        3 => (1..=96).contains(&length) && length % 3 == 0,
        6 => length == 2,
        _ => length == 4,
    }
}

/// Reads a file of one record, of zeros.
fn read_zeros(kind: u8, length: u8) -> Result<usize, ReadFault> {
    let mut file = [0u8; 260];
    file[0] = length;
    file[2] = kind;
    read_through(&file[..usize::from(length) + 4])
}

#[test]
fn every_length(rt: HostRuntime) {
    for kind in 1..=7u8 {
        for length in 0..=130u8 {
            let fault = Err(ReadFault::WrongLength(0));
            let answer = if suits(kind, length) { Ok(1) } else { fault };
            assert_eq!(rt; read_zeros(kind, length), answer);
        }
    }
}

#[test]
fn unknown_kinds(rt: HostRuntime) {
    assert_eq!(rt; read_through(&[0, 0, 0, 0]), Err(ReadFault::UnknownKind(0)));
    assert_eq!(rt;
        read_through(&[0, 0, 2, 0, 1, 0, 8, 0, 7]),
        Err(ReadFault::UnknownKind(4))
    );
    assert_eq!(rt;
        read_through(&[0, 0, 255, 255]),
        Err(ReadFault::UnknownKind(0))
    );
    assert_eq!(rt; read_through(&[0, 0, 2, 1]), Err(ReadFault::UnknownKind(0)));
}

#[test]
fn longest_file(rt: HostRuntime) -> Result<(), Fail> {
    let mut file = Vec::new(rt.alloc());
    for _ in 0..4096 {
        file.extend_from_slice(&[0, 0, 2, 0])?;
    }
    assert_eq!(rt; file.len(), 16_384);
    assert_eq!(rt; read_through(file.as_slice()), Ok(4096));
    file.push(0)?;
    assert_eq!(rt; read_through(file.as_slice()), Err(ReadFault::TooLong));
    Ok(())
}

/// A report of the reader's layer.
fn report(number: u8, offset: usize) -> Report {
    Report {
        layer: 1,
        number,
        offset,
    }
}

#[test]
fn reports(rt: HostRuntime) {
    assert_eq!(rt; ReadFault::TooLong.report(), report(1, 0));
    assert_eq!(rt; ReadFault::CutOff(7).report(), report(2, 7));
    assert_eq!(rt; ReadFault::UnknownKind(8).report(), report(3, 8));
    assert_eq!(rt; ReadFault::WrongLength(9).report(), report(4, 9));
}

#[test]
fn bodies(rt: HostRuntime) {
    let body = [96, 4, 0, END, 1, 2];
    assert_eq!(rt; branch_count(&body), 2);
    assert_eq!(rt;
        branch_at(&body, 0),
        Some(Branch {
            letter: 96,
            node: 4,
        })
    );
    assert_eq!(rt;
        branch_at(&body, 1),
        Some(Branch {
            letter: END,
            node: 513,
        })
    );
    assert_eq!(rt; branch_at(&body, 2), None);
    assert_eq!(rt; number(&body, 4), Some(513));
    assert_eq!(rt; number(&body, 5), None);
    assert_eq!(rt; number(&body, usize::MAX), None);
}
