ghost use Rattle.std.specs.Prelude.{◌≡◌, ℕ, ◌+◌, ◌*◌, ◌<◌, ◌≤◌, length, slice_index, unwrap_or};
ghost use Rattle.rules.specs.Tabled.{no_row, width};
ghost use Rattle.synthesis.specs.Courses.{letters_of, loop_of};
ghost use Rattle.synthesis.specs.Drawn.{Line};
ghost use Rattle.synthesis.specs.Marks.{Marked, onward};
ghost use Rattle.synthesis.specs.Table.{Cell, Entry, Tells};
ghost use Rattle.synthesis.specs.Weighed.{AllWeighed, lowers};
ghost use Rattle.synthesis.specs.Weights.{Lead};

use crate::course::Course;
use crate::drawn::{cell_of, named};
use crate::rows::if_marked;
use crate::weighed::Weighed;
use letters::alphabet::MOST_LETTERS;
use letters::letter::{Letter, may_insert};
use rules::table::{LAST_COLUMNS, NO_ROW};

// Places are widened by `as` where they index. Tried with `usize::from`: thirteen functions lost their proofs, and an index
// reads no plainer with it.

/// The row of a place, as it is written.
#[derive(Drop)]
struct Row<'a> {
    course: &'a Course<'a>,
    weighed: &'a Weighed<'a>,
    place: u16,
    /// The place that each letter leads to, or `NO_ROW`.
    line: [u16; MOST_LETTERS],
    ghost marked: { Marked weighed.now.rows.now place },
    ghost leads: { Line (loop_of course.now) (letters_of course.now) place line },
}

// What the places weigh is no ghost field: such a field holds only facts with one proof, and this one has a way to an end
// for each place, which may be one of several.
impl Row<'_> {
    /// The place with a row that the letter at an index leads to.
    fn onward(&self, j: usize) -> Option<u16>
        requires { j < length (letters_of self.now.course.now) }
        ensures { result ≡ onward (loop_of self.now.course.now) self.now.weighed.now.rows.now self.now.place (slice_index (letters_of self.now.course.now) j) }
    {
        if_marked(named(self.line[j]), self.weighed.rows)
    }

    /// The row that the letter at an index leads to.
    fn next(&self, j: usize) -> Option<u16>
        requires { j < length (letters_of self.now.course.now) }
        ensures { Cell (loop_of self.now.course.now) self.now.weighed.now.rows.now self.now.place (slice_index (letters_of self.now.course.now) j) (unwrap_or result no_row) }
    {
        let next = self.onward(j)?;
        Some(self.weighed.rows[next as usize] - 1)
    }

    /// Whether the letter at an index is insertable and leads to a place that owes one less.
    fn lowers(&self, j: usize) -> bool
        requires weighs { AllWeighed (loop_of self.now.course.now) self.now.weighed.now }
        requires within { j < length (letters_of self.now.course.now) }
        ensures { result ≡ lowers (loop_of self.now.course.now) self.now.weighed.now self.now.place (slice_index (letters_of self.now.course.now) j) }
    {
        let owed = self.weighed.owed;
        may_insert(self.course.letters()[j])
            && matches!(self.onward(j), Some(next) if owed[next as usize] + 1 == owed[self.place as usize])
    }

    /// The lead: the lowest letter that lowers what the place owes, or none where it owes nothing.
    fn lead(&self) -> Option<Letter>
        requires { AllWeighed (loop_of self.now.course.now) self.now.weighed.now }
        ensures { Lead (loop_of self.now.course.now) self.now.place (unwrap_or result no_row) }
    {
        let letters = self.course.letters();
        let j = (0..letters.len()).find(|j| self.lowers(*j))?;
        Some(letters[j])
    }

    /// Writes the row: a cell for each letter, then owed, span and lead.
    fn write(&self, row: &mut [u16])
        requires weighs { AllWeighed (loop_of self.now.course.now) self.now.weighed.now }
        requires wide { length row.old ≡ width (letters_of self.now.course.now) }
        ensures { (j : ℕ) → j < width (letters_of self.now.course.now) → Entry (loop_of self.now.course.now) (letters_of self.now.course.now) self.now.weighed.now.rows.now self.now.place j (slice_index row.new j) }
    {
        let (cells, last) = row.split_at_mut(self.course.letters().len());
        for (j, cell) in cells.iter_mut().enumerate() {
            *cell = cell_of(self.next(j));
        }
        last[0] = self.weighed.owed[self.place as usize];
        last[1] = self.weighed.span[self.place as usize];
        last[2] = cell_of(self.lead().map(u16::from));
    }
}

/// The row of a place that has one.
fn row_of<'a>(course: &'a Course<'a>, weighed: &'a Weighed<'a>, place: u16) -> Row<'a>
    requires inside { place < (loop_of course.now).size }
    requires marked { Marked weighed.now.rows.now place }
    ensures course { result.course.now ≡ course.now }
    ensures weighed { result.weighed.now ≡ weighed.now }
    ensures place { result.place ≡ place }
{
    let mut line = [NO_ROW; MOST_LETTERS];
    course.line(place, &mut line);
    Row {
        course,
        weighed,
        place,
        line,
    }
}

/// Writes the whole table memory.
pub(crate) fn write<'a>(course: &'a Course<'a>, weighed: &'a Weighed<'a>, table: &mut [u16])
    requires weighs { AllWeighed (loop_of course.now) weighed.now }
    requires room { (loop_of course.now).size * width (letters_of course.now) ≤ length table.old }
    ensures { Tells (loop_of course.now) (letters_of course.now) table.new weighed.now.count }
{
    let width = course.checked.letters.len() + LAST_COLUMNS;
    // Widened by a cast, as at an index: rows are told apart by it below.
    let count = weighed.count as usize;
    // By number: of the parts that `chunks_exact_mut` gives a proof knows the lengths alone.
    for (i, &place) in weighed.order[..count].iter().enumerate() {
        row_of(course, weighed, place).write(&mut table[i * width..(i + 1) * width]);
    }
    table[count * width..].fill(NO_ROW);
}
