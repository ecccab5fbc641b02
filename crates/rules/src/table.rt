ghost use Rattle.std.specs.Prelude.{◌≡◌, cond, Some, nat_lt};
ghost use Rattle.letters.specs.Declarations.{letters_of};
ghost use Rattle.rules.specs.Valued.{meaning};
ghost use Rattle.rules.specs.Tabled.{entry_at, cell_at, amount, row_owed, largest};
ghost use Rattle.rules.specs.Rows.{all_below, keeps_after, one_less, leads_on, keeps_end, keeps_cells, keeps_row};
ghost use Rattle.rules.specs.Tables.{table_rule, TableMade, TableLawful};

use crate::fault::{MOST_PLACES, RuleFault};
use crate::rule::{MOST_SPAN, Rule};
use letters::alphabet::{Alphabet, index_of};
use letters::letter::{END, Letter, may_insert};

/// What a cell holds where its letter is not admitted.
pub const NO_ROW: u16 = 65_535;

/// The columns after the letters: owed, span and lead.
pub const LAST_COLUMNS: usize = 3;

/// Rows in a memory, one after the other: a cell for each letter in order, then owed, span and lead. Each row is a place.
#[derive(Clone, Copy)]
pub struct Table<'a> {
    letters: &'a [Letter],
    memory: &'a [u16],
    rows: u32,
    most: u32,
}

impl<'a> Table<'a> {
    /// The rule of the memory's first rows; the memory may hold any numbers.
    pub fn new(
        alphabet: &'a Alphabet,
        memory: &'a [u16],
        rows: usize,
    ) -> Result<Table<'a>, RuleFault>
        ensures exact { TableMade (letters_of alphabet.now) memory.now rows result }
        ensures lawful { TableLawful result }
    {
        // Casts, since the language has no `From` between these; the test before the second shows that it loses nothing.
        if rows as u64 > MOST_PLACES {
            return Err(RuleFault::Places);
        }
        let letters = alphabet.letters();
        if rows == 0 || rows * (letters.len() + LAST_COLUMNS) > memory.len() {
            return Err(RuleFault::Rows);
        }
        let rows = rows as u32;
        let table = Table {
            letters,
            memory,
            rows,
            most: 0,
        };
        if !table.keeps_rows() {
            return Err(RuleFault::Rows);
        }
        Ok(Table {
            most: table.largest_owed(),
            ..table
        })
    }

    /// The number in a column of a live place's row, or none where that lies past the memory.
    fn entry(&self, place: u32, column: usize) -> Option<u16>
        ensures { result ≡ entry_at self.now.letters.now self.now.memory.now self.now.rows place column }
    {
        if !self.is_live(place) {
            return None;
        }
        let width = self.letters.len() + LAST_COLUMNS;
        // One test in the widest numbers, to which a `usize` goes by a cast alone, and the place alike. Tried with the
        // library's saturating product, sum and `get`: a letter under a cap takes 156 instructions in place of 130, against
        // the aim of at most half as much again as a plain walk of the table.
        let index = place as u128 * width as u128 + column as u128;
        if index < self.memory.len() as u128 {
            Some(self.memory[index as usize])
        } else {
            None
        }
    }

    /// The number in a column of a live place's row, else 0.
    fn amount(&self, place: u32, column: usize) -> u32
        ensures { result ≡ cond (nat_lt place self.now.rows) (amount self.now.letters.now self.now.memory.now place column) 0 }
    {
        self.entry(place, column).map_or(0, u32::from)
    }

    /// The place that a cell of a live place's row names.
    fn cell(&self, place: u32, column: usize) -> Option<u32>
        ensures { result ≡ cell_at self.now.letters.now self.now.memory.now self.now.rows place column }
    {
        self.entry(place, column)
            .filter(|named| *named != NO_ROW)
            .map(u32::from)
    }

    /// The largest owed of the places.
    fn largest_owed(&self) -> u32
        ensures { result ≡ largest (row_owed self.now.letters.now self.now.memory.now) self.now.rows }
    {
        (0..self.rows)
            .map(|place| self.owed_at(place))
            .max()
            .unwrap_or(0)
    }

    /// Whether what follows a place after the letter of a column keeps the laws.
    fn keeps_cell(&self, place: u32, letter: Letter, column: usize) -> bool
        ensures { result ≡ keeps_after (meaning table_rule self.now) place letter (cell_at self.now.letters.now self.now.memory.now self.now.rows place column) }
    {
        // A `match`: tried with `is_none_or`, but the check infers no result of a closure that calls the table's methods.
        match self.cell(place, column) {
            None => true,
            Some(after) => {
                self.is_live(after)
                    && (letter == END || self.span_at(after) < self.span_at(place))
                    && (!may_insert(letter)
                        || self.owed_at(place).saturating_sub(1) <= self.owed_at(after))
            }
        }
    }

    /// Whether the letters of the alphabet keep the laws at a place.
    fn keeps_cells(&self, place: u32) -> bool
        ensures { result ≡ keeps_cells (meaning table_rule self.now) self.now.letters.now self.now.memory.now self.now.rows place }
    {
        self.letters
            .iter()
            .enumerate()
            .all(|(column, letter)| self.keeps_cell(place, *letter, column))
    }

    /// Whether a letter is insertable and brings the end one letter nearer.
    fn leads_on(&self, place: u32, letter: Letter) -> bool
        ensures { result ≡ leads_on (meaning table_rule self.now) place (Some letter) }
    {
        may_insert(letter)
            && matches!(
                self.following(place, letter),
                Some(after) if u64::from(self.owed_at(after)) + 1 == u64::from(self.owed_at(place))
            )
    }

    /// Whether the end is admitted exactly where nothing is owed, and elsewhere the lead leads to it.
    fn keeps_end(&self, place: u32) -> bool
        ensures { result ≡ keeps_end (meaning table_rule self.now) place }
    {
        let owed = self.owed_at(place);
        if self.following(place, END).is_some() {
            owed == 0
        } else {
            owed > 0 && matches!(self.lead_at(place), Some(lead) if self.leads_on(place, lead))
        }
    }

    /// Whether a place's row keeps the laws.
    fn keeps_row(&self, place: u32) -> bool
        ensures { result ≡ keeps_row (meaning table_rule self.now) self.now.letters.now self.now.memory.now self.now.rows place }
    {
        self.span_at(place) <= MOST_SPAN && self.keeps_end(place) && self.keeps_cells(place)
    }

    /// Whether every row keeps the laws.
    fn keeps_rows(&self) -> bool
        ensures { result ≡ all_below (keeps_row (meaning table_rule self.now) self.now.letters.now self.now.memory.now self.now.rows) self.now.rows }
    {
        (0..self.rows).all(|place| self.keeps_row(place))
    }
}

impl<'a> Rule for Table<'a> {
    ghost count = { table_rule.count };

    ghost start = { table_rule.start };

    ghost most = { table_rule.most };

    ghost live = { table_rule.live };

    ghost next = { table_rule.next };

    ghost owed = { table_rule.owed };

    ghost span = { table_rule.span };

    ghost lead = { table_rule.lead };

    fn place_count(&self) -> u32 {
        self.rows
    }

    fn start_place(&self) -> u32 {
        0
    }

    fn most_owed(&self) -> u32 {
        self.most
    }

    fn is_live(&self, place: u32) -> bool {
        place < self.rows
    }

    fn following(&self, place: u32, letter: Letter) -> Option<u32> {
        self.cell(place, index_of(self.letters, letter)?)
    }

    fn owed_at(&self, place: u32) -> u32 {
        self.amount(place, self.letters.len())
    }

    fn span_at(&self, place: u32) -> u32 {
        self.amount(place, self.letters.len() + 1)
    }

    fn lead_at(&self, place: u32) -> Option<Letter> {
        if self.owed_at(place) == 0 {
            return None;
        }
        Letter::try_from(self.entry(place, self.letters.len() + 2)?).ok()
    }
}
