use letters::alphabet::{Alphabet, Barred};
use letters::letter::{END, Kind, Letter, NUMBERS_A_KIND, TICK, may_insert, read};
use letters::refusal::Report;
use std::process::Abort;

/// A letter by division, and whether it may be inserted.
fn divided(byte: Letter) -> (Option<(Kind, Letter)>, bool) {
    let number = byte % NUMBERS_A_KIND;
    match byte / NUMBERS_A_KIND {
        0 => (Some((Kind::Sensor, number)), false),
        1 => (Some((Kind::Received, number)), false),
        2 => (Some((Kind::Sent, number)), true),
        3 => (Some((Kind::Command, number)), true),
        4 if number == 0 => (Some((Kind::Tick, 0)), true),
        5 if number == 0 => (Some((Kind::End, 0)), false),
        _ => (None, false),
    }
}

#[test]
fn every_byte(rt: HostRuntime) {
    for byte in 0..=255u8 {
        let (letter, insertable) = divided(byte);
        assert_eq!(rt; read(byte), letter);
        assert_eq!(rt; may_insert(byte), insertable);
    }
}

/// Thirty-one letters, 3 to 33, of which the first thirty may be declared.
const LETTERS: [Letter; 31] = [
    3, 4, 5, 6, 7, 8, 9, 10, 11, 12, 13, 14, 15, 16, 17, 18, 19, 20, 21, 22, 23, 24, 25, 26, 27,
    28, 29, 30, 31, 32, 33,
];

#[test]
fn bare_alphabet(rt: HostRuntime) {
    let mut alphabet = Alphabet::new();
    assert_eq!(rt; alphabet.letters(), [TICK, END].as_slice());
    assert_eq!(rt; alphabet.declare(&[]), Ok(()));
    assert_eq!(rt; alphabet.letters(), [TICK, END].as_slice());
    assert_eq!(rt; alphabet.position(END), Some(1));
    assert!(rt; !alphabet.holds(3));
}

#[test]
fn full_alphabet(rt: HostRuntime) {
    let mut alphabet = Alphabet::new();
    assert_eq!(rt; alphabet.declare(&LETTERS), Err(Barred { offset: 30 }));
    assert_eq!(rt; alphabet.letters().len(), 2);
    assert_eq!(rt; alphabet.declare(&LETTERS[..30]), Ok(()));
    assert_eq!(rt; alphabet.letters().len(), 32);
    assert_eq!(rt; alphabet.position(32), Some(29));
    assert_eq!(rt; alphabet.position(TICK), Some(30));
    assert_eq!(rt; alphabet.position(END), Some(31));
    assert!(rt; alphabet.holds(3) && !alphabet.holds(33));
}

/// Puts a byte at each place of a declaration in turn, and expects it to be barred there.
fn barred_everywhere(rt: &impl Abort, byte: Letter) {
    for place in 0..30usize {
        let mut letters = LETTERS;
        letters[place] = byte;
        let mut alphabet = Alphabet::new();
        assert_eq!(rt;
            alphabet.declare(&letters[..30]),
            Err(Barred { offset: place })
        );
        assert_eq!(rt; alphabet.letters().len(), 2);
    }
}

#[test]
fn barred_bytes(rt: HostRuntime) {
    for byte in [TICK, END, TICK + 1, END - 1, END + 1, 255] {
        barred_everywhere(&rt, byte);
    }
}

#[test]
fn not_ascending(rt: HostRuntime) {
    let mut alphabet = Alphabet::new();
    assert_eq!(rt; alphabet.declare(&[96, 96]), Err(Barred { offset: 1 }));
    assert_eq!(rt; alphabet.declare(&[96, 97, 5]), Err(Barred { offset: 2 }));
    let report = Report {
        layer: 2,
        number: 5,
        offset: 2,
    };
    assert_eq!(rt; Barred { offset: 2 }.report(), report);
}
