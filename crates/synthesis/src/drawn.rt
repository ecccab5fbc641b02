ghost use Rattle.std.specs.Prelude.{◌≡◌, ◌*◌, ◌≤◌, length, unwrap_or};
ghost use Rattle.rules.specs.Tabled.{no_row, row_named, width};
ghost use Rattle.synthesis.specs.Courses.{letters_of, loop_of};
ghost use Rattle.synthesis.specs.Drawn.{Columned, Lines, drawn};

use crate::course::Course;
use letters::alphabet::MOST_LETTERS;
use letters::letter::{LETTER_BOUND, Letter};
use places::places::{MOST_SIZE, Places};
use rules::table::{LAST_COLUMNS, NO_ROW};

// Places are widened by `as` where they index. Tried with `usize::from`: thirteen functions lost their proofs, and an index
// reads no plainer with it.

/// The places of a loop, drawn into a memory: a row for each place, with a cell for each letter.
#[derive(Clone, Copy)]
pub(crate) struct Drawn<'a> {
    pub(crate) cells: &'a [u16],
    /// The column of each letter.
    pub(crate) columns: &'a [Option<u8>; LETTER_BOUND],
    /// How many numbers a row has.
    pub(crate) stride: u16,
    /// How many places there are.
    pub(crate) size: u16,
    pub(crate) boundary: u16,
}

/// The place that a cell names.
pub(crate) fn named(cell: u16) -> Option<u16>
    ensures { result ≡ row_named cell }
{
    if cell == NO_ROW { None } else { Some(cell) }
}

/// What a cell holds of a number that may be absent.
pub(crate) fn cell_of(number: Option<u16>) -> u16
    ensures { result ≡ unwrap_or number no_row }
{
    number.unwrap_or(NO_ROW)
}

impl Drawn<'_> {
    /// The place that follows a place after a letter.
    pub(crate) fn next(&self, place: u16, letter: Letter) -> Option<u16>
        ensures { result ≡ (drawn self.now).next place letter }
    {
        let column = self.columns[letter as usize]?;
        let index = place as usize * self.stride as usize + column as usize;
        if index < self.cells.len() {
            named(self.cells[index])
        } else {
            None
        }
    }
}

impl Places for Drawn<'_> {
    ghost meaning = { drawn };

    fn size(&self) -> u16 {
        self.size.min(MOST_SIZE + 1)
    }

    fn boundary(&self) -> u16 {
        self.boundary
    }

    fn following(&self, place: u16, letter: Letter) -> Option<u16> {
        self.next(place, letter)
    }
}

/// The column of each letter.
pub(crate) fn columns_of(course: &Course) -> [Option<u8>; LETTER_BOUND]
    ensures { Columned (letters_of course.now) result (length (letters_of course.now)) }
{
    let mut columns = [None; LETTER_BOUND];
    for (j, &letter) in course.checked.letters.iter().enumerate() {
        // Narrowed by a cast: there are few letters, and `try_from` would leave an error to rule out.
        columns[letter as usize] = Some(j as u8);
    }
    columns
}

/// Draws the places of the property's loop.
pub(crate) fn draw(course: &Course, table: &mut [u16])
    requires { (loop_of course.now).size * width (letters_of course.now) ≤ length table.old }
    ensures { Lines (loop_of course.now) (letters_of course.now) table.new (loop_of course.now).size }
{
    let letters = course.checked.letters.len();
    let mut line = [NO_ROW; MOST_LETTERS];
    // By number: the table's rows would be a slice by `chunks_exact_mut`, of which a proof knows the lengths alone.
    for place in 0..course.size() {
        course.line(place, &mut line);
        let start = place as usize * (letters + LAST_COLUMNS);
        table[start..start + letters].copy_from_slice(&line[..letters]);
    }
}
