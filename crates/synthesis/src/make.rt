ghost use Rattle.std.specs.Prelude.{◌≡◌, ◌*◌, ◌≤◌, true, length};
ghost use Rattle.letters.specs.Alphabets.{each_a_letter};
ghost use Rattle.rules.specs.Tabled.{width};
ghost use Rattle.synthesis.specs.Courses.{letters_of, loop_of};
ghost use Rattle.synthesis.specs.Drawn.{drawn};
ghost use Rattle.synthesis.specs.Made.{Made};
ghost use Rattle.synthesis.specs.Table.{AllAre};
ghost use Rattle.synthesis.specs.Weighed.{Weighing};

use crate::course::Course;
use crate::drawn::{Drawn, columns_of, draw};
use crate::source::Source;
use crate::weighed::{Weighed, Working};
use crate::write::write;
use rules::table::{LAST_COLUMNS, NO_ROW};

/// Numbers the rows and weighs them; none where a place is stranded.
fn weigh_rows<'a>(source: &Source<Drawn>, working: Working<'a>) -> Option<Weighed<'a>>
    requires { working.size ≡ (drawn source.now.places.now).size }
    ensures { Weighing (drawn source.now.places.now) result }
{
    let Working {
        size: _,
        owed,
        rows,
        order,
        span,
    } = working;
    source.mark_live(owed);
    let count = source.number(owed, rows, order);
    source.weigh(rows, owed, span)?;
    Some(Weighed {
        count,
        rows,
        order,
        owed,
        span,
    })
}

// That the table has room is asked of course and table, which no value holds together; `write` writes into what was drawn.

/// Draws the places of the course into the table, then numbers and weighs the rows.
fn weigh_drawn<'a>(course: &Course, table: &mut [u16], working: Working<'a>) -> Option<Weighed<'a>>
    requires room { (loop_of course.now).size * width (letters_of course.now) ≤ length table.old }
    requires size { working.size ≡ (loop_of course.now).size }
    ensures { Weighing (loop_of course.now) result }
{
    draw(course, table);
    let columns = columns_of(course);
    let places = Drawn {
        cells: table,
        columns: &columns,
        // Narrowed by a cast: there are few letters, and `try_from` would leave an error to rule out.
        stride: (course.checked.letters.len() + LAST_COLUMNS) as u16,
        size: course.size(),
        boundary: course.boundary(),
    };
    let source = Source {
        places: &places,
        letters: course.checked.letters,
    };
    weigh_rows(&source, working)
}

/// Fills the table, and clears the working memory; answers the number of rows, or none where a place is stranded.
pub(crate) fn make_table(course: &Course, table: &mut [u16], work: &mut [u16]) -> Option<u16>
    requires each_a_letter { each_a_letter (letters_of course.now) ≡ true }
    requires room { (loop_of course.now).size * width (letters_of course.now) ≤ length table.old }
    requires work { 4 * (loop_of course.now).size ≤ length work.old }
    ensures table { Made (loop_of course.now) (letters_of course.now) table.new result }
    ensures cleared { AllAre 0 work.new }
{
    let working = Working::new(work, usize::from(course.size()));
    let answer = match weigh_drawn(course, table, working) {
        None => {
            table.fill(NO_ROW);
            None
        }
        Some(weighed) => {
            write(course, &weighed, table);
            Some(weighed.count)
        }
    };
    work.fill(0);
    answer
}
