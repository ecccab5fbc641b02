ghost use Rattle.std.specs.Prelude.{◌≡◌, ◌<◌, length};
ghost use Rattle.records.specs.Readings.{found_in, found_at, judged, Whole};
ghost use Rattle.records.specs.Readers.{told_record, told, past, Opened, Hands};

use crate::body::{BRANCH_BYTES, MOST_BRANCHES, two_bytes};
use crate::fault::ReadFault;
use crate::record::Record;

/// The most bytes of a property file.
pub const MOST_BYTES: usize = 16_384;

/// The bytes before a record's body: its length and its kind, two bytes each.
pub const HEADER_BYTES: usize = 4;

/// Walks the records of a property file, from an offset on.
// The whole file and an offset, since each record is handed out with the offset where it stands.
#[derive(Drop)]
pub struct Reader<'a> {
    file: &'a [u8],
    at: usize,
}

/// The body as a record of the kind, if there is such a kind and the body's length suits it.
// The kinds' numbers stand here alone, since a record is the enum of its kind.
fn record_of<'a>(kind: usize, body: &'a [u8], at: usize) -> Result<Record<'a>, ReadFault>
    ensures { told_record at result ≡ judged kind body.now at }
{
    let length = body.len();
    match kind {
        1 if length == 1 => Ok(Record::Letter(body)),
        2 if length == 0 => Ok(Record::Nothing(body)),
        3 if (1..=MOST_BRANCHES * BRANCH_BYTES).contains(&length) && length % BRANCH_BYTES == 0 =>
            Ok(Record::Choice(body)),
        4 if length == 4 => Ok(Record::Sequence(body)),
        5 if length == 4 => Ok(Record::Both(body)),
        6 if length == 2 => Ok(Record::Lap(body)),
        7 if length == 4 => Ok(Record::All(body)),
        1..=7 => Err(ReadFault::WrongLength(at)),
        _ => Err(ReadFault::UnknownKind(at)),
    }
}

/// The record that the bytes begin with; they stand in the file at `at`.
fn first_record<'a>(rest: &'a [u8], at: usize) -> Result<Record<'a>, ReadFault>
    requires { 0 < length rest.now }
    ensures { told_record at result ≡ found_in rest.now at }
{
    let [low, high, kind_low, kind_high, body @ ..] = rest else {
        return Err(ReadFault::CutOff(at));
    };
    let kind = two_bytes(*kind_low, *kind_high);
    match body.get(..two_bytes(*low, *high)) {
        Some(body) => record_of(kind, body, at),
        None => Err(ReadFault::CutOff(at)),
    }
}

impl<'a> Reader<'a> {
    /// A reader at the start of a file.
    pub fn open(file: &'a [u8]) -> Result<Reader<'a>, ReadFault>
        ensures opened { Opened result file.now }
        ensures whole { Whole file.now }
    {
        if file.len() > MOST_BYTES {
            return Err(ReadFault::TooLong);
        }
        Ok(Reader { file, at: 0 })
    }

    /// The next record and its offset, or none at the end of the file.
    pub fn next(&mut self) -> Result<Option<(Record<'a>, usize)>, ReadFault>
        ensures found { told result ≡ found_at self.old.file.now self.old.at }
        ensures moved { self.new.at ≡ past self.old.at (found_at self.old.file.now self.old.at) }
        ensures kept { self.new.file ≡ self.old.file }
        ensures hands { Hands self.old.file.now self.old.at result self.new.at }
    {
        let at = self.at;
        if at >= self.file.len() {
            return Ok(None);
        }
        let record = first_record(&self.file[at..], at)?;
        self.at = at + HEADER_BYTES + record.body().len();
        Ok(Some((record, at)))
    }
}
