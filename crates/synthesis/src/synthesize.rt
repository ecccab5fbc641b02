ghost use Rattle.std.specs.Prelude.{◌≡◌, ◌-◌, ◌≤◌, length, slice_index};
ghost use Rattle.letters.specs.Alphabets.{most_letters};
ghost use Rattle.property.specs.Placed.{sizes_in};
ghost use Rattle.synthesis.specs.Fitting.{Read, fitting};
ghost use Rattle.synthesis.specs.Synthesis.{Synthesis, lent};

use crate::course::Course;
use crate::fault::SynthesisFault;
use crate::make::make_table;
use letters::alphabet::Alphabet;
use letters::letter::Letter;
use property::check::read_property;
use property::place::Nodes;
use property::sizes::MOST_SIZE;
use rules::table::LAST_COLUMNS;

/// How many numbers of working memory each place needs.
const WORK_A_PLACE: usize = 4;

/// The size of the property, as it is kept.
fn property_size(place: &Nodes) -> usize
    ensures { result ≡ slice_index (sizes_in place.now) (length (sizes_in place.now) - 1) }
{
    usize::from(place.sizes().last().copied().unwrap_or(0))
}

/// Whether the property is small enough, and the memories are long enough.
fn fits(
    place: &Nodes,
    letters: &[Letter],
    table: &[u16],
    work: &[u16],
) -> Result<(), SynthesisFault>
    requires { length letters.now ≤ most_letters }
    ensures { result ≡ fitting (slice_index (sizes_in place.now) (length (sizes_in place.now) - 1)) (length letters.now) (length table.now) (length work.now) place.now.last }
{
    let at = place.last_offset();
    let size = property_size(place);
    if size > usize::from(MOST_SIZE) {
        return Err(SynthesisFault::TooLarge(at));
    }
    if table.len() < size * (letters.len() + LAST_COLUMNS) {
        return Err(SynthesisFault::TableMemory(at));
    }
    if work.len() < WORK_A_PLACE * size {
        return Err(SynthesisFault::WorkingMemory(at));
    }
    Ok(())
}

/// Fills the table of the checked property in the place; answers the number of rows.
fn fill_table<'a>(
    file: &'a [u8],
    place: &'a Nodes,
    alphabet: &'a Alphabet,
    table: &mut [u16],
    work: &mut [u16],
) -> Result<usize, SynthesisFault>
    requires { Read file.now place.now alphabet.now }
    ensures { Synthesis file.now (lent alphabet.now table.old work.old) result (lent alphabet.now table.new work.new) }
{
    let letters = alphabet.letters();
    fits(place, letters, table, work)?;
    let course = Course::new(file, place, letters);
    match make_table(&course, table, work) {
        Some(rows) => Ok(usize::from(rows)),
        None => Err(SynthesisFault::Stuck(place.last_offset())),
    }
}

/// Makes the table of a property file: writes the alphabet and the table, and answers the number of rows. A refusal
/// leaves the alphabet as it was.
pub fn synthesize(
    file: &[u8],
    alphabet: &mut Alphabet,
    table: &mut [u16],
    work: &mut [u16],
) -> Result<usize, SynthesisFault>
    ensures { Synthesis file.now (lent alphabet.old table.old work.old) result (lent alphabet.new table.new work.new) }
{
    let mut place = Nodes::new();
    let mut declared = Alphabet::new();
    read_property(file, &mut declared, &mut place)?;
    let rows = fill_table(file, &place, &declared, table, work)?;
    *alphabet = declared;
    Ok(rows)
}
