ghost use Rattle.std.specs.Prelude.{◌-◌, ◌<◌, ◌&&◌, ltb, if◌then◌else◌, Some, None, nat_eq, nat_lt};
ghost use Rattle.letters.specs.Letters.{tick, end};

use crate::cap::Cap;
use crate::count::Count;
use crate::fault::{MOST_PLACES, RuleFault};
use crate::rule::{MOST_SPAN, Rule};
use crate::table::{NO_ROW, Table};
use letters::alphabet::Alphabet;
use letters::letter::{END, Letter, NUMBERS_A_KIND, TICK};
use std::test::Fail;

/// No tick or two in a cycle: a second tick is owed after the first.
#[derive(Clone, Copy)]
struct Paired;

impl Rule for Paired {
    ghost count = { λ _. 3 };

    ghost start = { λ _. 2 };

    ghost most = { λ _. 1 };

    ghost live = { λ _ p. nat_lt p 3 };

    ghost next = { λ _ p a. (if ltb p 3 then (if nat_eq a end then (if nat_eq p 1 then None else Some 2) else (if nat_eq a tick && nat_lt 0 p then Some (p - 1) else None)) else None) };

    ghost owed = { λ _ p. (if nat_eq p 1 then 1 else 0) };

    ghost span = { λ _ p. (if ltb p 3 then p else 0) };

    ghost lead = { λ _ p. (if nat_eq p 1 then Some tick else None) };

    fn place_count(&self) -> u32 {
        3
    }

    fn start_place(&self) -> u32 {
        2
    }

    fn most_owed(&self) -> u32 {
        1
    }

    fn is_live(&self, place: u32) -> bool {
        place < 3
    }

    fn following(&self, place: u32, letter: Letter) -> Option<u32> {
        match (place, letter) {
            (0 | 2, END) => Some(2),
            (1 | 2, TICK) => Some(place - 1),
            _ => None,
        }
    }

    fn owed_at(&self, place: u32) -> u32 {
        u32::from(place == 1)
    }

    fn span_at(&self, place: u32) -> u32 {
        if place < 3 { place } else { 0 }
    }

    fn lead_at(&self, place: u32) -> Option<Letter> {
        (place == 1).then_some(TICK)
    }
}

#[test]
fn a_count_has_a_number_up_to_255(rt: HostRuntime) -> Result<(), Fail> {
    let alphabet = Alphabet::new();
    let none = Count::new(&alphabet, 0)?;
    assert_eq!(rt; none.place_count(), 1);
    assert_eq!(rt; none.following(0, TICK), None);
    assert_eq!(rt; none.following(0, END), Some(0));
    assert_eq!(rt; Count::new(&alphabet, 255)?.place_count(), 256);
    assert!(rt; matches!(Count::new(&alphabet, 256), Err(RuleFault::Number)));
    Ok(())
}

#[test]
fn a_count_counts_letters_of_its_alphabet_down(rt: HostRuntime) -> Result<(), Fail> {
    let alphabet = Alphabet::new();
    let rule = Count::new(&alphabet, 2)?;
    assert_eq!(rt; rule.following(2, TICK), Some(1));
    assert_eq!(rt; rule.following(1, TICK), Some(0));
    assert_eq!(rt; rule.following(0, TICK), None);
    assert_eq!(rt; rule.following(0, END), Some(2));
    assert_eq!(rt; rule.following(2, 0), None);
    assert_eq!(rt; rule.following(3, TICK), None);
    Ok(())
}

#[test]
fn a_cap_of_one_passes_one_letter_a_cycle(rt: HostRuntime) -> Result<(), Fail> {
    let alphabet = Alphabet::new();
    let rule = Cap::new(Count::new(&alphabet, 2)?, 1)?;
    let start = rule.start_place();
    let after = rule.following(start, TICK).ok_or("dropped")?;
    assert_eq!(rt; rule.span_at(after), 0);
    assert_eq!(rt; rule.following(after, TICK), None);
    assert_eq!(rt; rule.following(after, END), Some(start));
    Ok(())
}

#[test]
fn a_cap_has_places_up_to_its_limit(rt: HostRuntime) -> Result<(), Fail> {
    let alphabet = Alphabet::new();
    let count = Count::new(&alphabet, 255)?;
    let rule = Cap::new(Cap::standard(count)?, 15)?;
    assert_eq!(rt; u64::from(rule.place_count()), MOST_PLACES);
    assert_eq!(rt; rule.span_at(rule.start_place()), 15);
    assert!(rt; matches!(Cap::new(Cap::standard(count)?, 16), Err(RuleFault::Places)));
    assert!(rt; matches!(Cap::new(count, 256), Err(RuleFault::Number)));
    Ok(())
}

#[test]
fn a_cap_keeps_room_for_what_is_owed(rt: HostRuntime) -> Result<(), Fail> {
    assert!(rt; matches!(Cap::new(Paired, 0), Err(RuleFault::Number)));
    let one = Cap::new(Paired, 1)?;
    assert_eq!(rt; one.following(one.start_place(), TICK), None);
    let two = Cap::new(Paired, 2)?;
    let after = two.following(two.start_place(), TICK).ok_or("dropped")?;
    assert_eq!(rt; two.owed_at(after), 1);
    assert_eq!(rt; two.lead_at(after), Some(TICK));
    assert_eq!(rt; two.following(after, END), None);
    Ok(())
}

// Casts in constants, where `From` cannot be called, and between types that have none.

/// The rows of no tick or two in a cycle: tick, end, owed, span, lead; the lead is read in the second row alone.
const PAIRED_ROWS: [u16; 15] = [
    1,
    0,
    0,
    2,
    999, //
    2,
    NO_ROW,
    1,
    1,
    TICK as u16, //
    NO_ROW,
    0,
    0,
    0,
    NO_ROW,
];

/// The refusal of the paired rows with another number in one place, if there is one.
fn refused_with(index: usize, number: u16) -> Option<RuleFault>
    requires { index < 15 }
{
    let mut memory = PAIRED_ROWS;
    memory[index] = number;
    refused(&Alphabet::new(), &memory, 3)
}

fn refused<'a>(alphabet: &'a Alphabet, memory: &'a [u16], rows: usize) -> Option<RuleFault> {
    Table::new(alphabet, memory, rows).err()
}

#[test]
fn a_table_reads_its_rows(rt: HostRuntime) -> Result<(), Fail> {
    let alphabet = Alphabet::new();
    let rule = Table::new(&alphabet, &PAIRED_ROWS, 3)?;
    assert_eq!(rt; rule.place_count(), 3);
    assert_eq!(rt; rule.most_owed(), 1);
    assert_eq!(rt; rule.following(rule.start_place(), TICK), Some(1));
    assert_eq!(rt; rule.lead_at(1), Some(TICK));
    assert_eq!(rt; rule.following(1, END), None);
    assert_eq!(rt; rule.following(2, END), Some(0));
    assert_eq!(rt; rule.lead_at(2), None);
    assert_eq!(rt; rule.following(3, END), None);
    assert!(rt; matches!(Cap::new(rule, 0), Err(RuleFault::Number)));
    Ok(())
}

#[test]
fn a_table_lies_in_its_memory(rt: HostRuntime) {
    let alphabet = Alphabet::new();
    assert_eq!(rt; refused(&alphabet, &PAIRED_ROWS, 0), Some(RuleFault::Rows));
    assert_eq!(rt; refused(&alphabet, &PAIRED_ROWS, 3), None);
    assert_eq!(rt;
        refused(&alphabet, &PAIRED_ROWS[0..14], 3),
        Some(RuleFault::Rows)
    );
    assert_eq!(rt;
        refused(&alphabet, &[], MOST_PLACES as usize),
        Some(RuleFault::Rows)
    );
    assert_eq!(rt;
        refused(&alphabet, &[], MOST_PLACES as usize + 1),
        Some(RuleFault::Places)
    );
}

#[test]
fn a_table_follows_its_own_rows(rt: HostRuntime) {
    assert_eq!(rt; refused_with(0, 3), Some(RuleFault::Rows));
    assert_eq!(rt; refused_with(11, 3), Some(RuleFault::Rows));
    assert_eq!(rt; refused_with(0, NO_ROW), None);
}

#[test]
fn a_table_owes_exactly_where_the_end_is_not_admitted(rt: HostRuntime) {
    assert_eq!(rt; refused_with(6, 0), Some(RuleFault::Rows));
    assert_eq!(rt; refused_with(11, NO_ROW), Some(RuleFault::Rows));
}

#[test]
fn a_table_leads_to_the_end(rt: HostRuntime) {
    assert_eq!(rt; refused_with(5, NO_ROW), Some(RuleFault::Rows));
    assert_eq!(rt; refused_with(7, 2), Some(RuleFault::Rows));
    assert_eq!(rt; refused_with(9, u16::from(END)), Some(RuleFault::Rows));
    assert_eq!(rt;
        refused_with(9, u16::from(TICK) + 256),
        Some(RuleFault::Rows)
    );
}

#[test]
fn a_table_has_falling_spans_up_to_the_limit(rt: HostRuntime) {
    assert_eq!(rt; refused_with(3, 1), Some(RuleFault::Rows));
    assert_eq!(rt; refused_with(3, MOST_SPAN as u16), None);
    assert_eq!(rt;
        refused_with(3, MOST_SPAN as u16 + 1),
        Some(RuleFault::Rows)
    );
}

#[test]
fn a_table_loses_no_more_than_one_owed_to_a_letter(rt: HostRuntime) {
    let mut alphabet = Alphabet::new();
    assert!(rt; alphabet.declare(&[3 * NUMBERS_A_KIND]).is_ok());
    let lead = u16::from(TICK);
    let mut memory = [
        NO_ROW, 1, 0, 0, 3, 0, //
        NO_ROW, 2, NO_ROW, 2, 2, lead, //
        NO_ROW, 3, NO_ROW, 1, 1, lead, //
        NO_ROW, NO_ROW, 0, 0, 0, 0,
    ];
    assert_eq!(rt; refused(&alphabet, &memory, 4), None);
    memory[6] = 3;
    assert_eq!(rt; refused(&alphabet, &memory, 4), Some(RuleFault::Rows));
}
