ghost use Rattle.std.specs.Prelude.{◌≡◌, Some};
ghost use Rattle.records.specs.Faults.{read_report, read_text};

use crate::reader::MOST_BYTES;
use letters::refusal::Report;
use std::fmt;

/// What is wrong with a file's records, with the offset of the record.
#[derive(Clone, Copy, PartialEq, Eq, Debug)]
pub enum ReadFault {
    TooLong,
    CutOff(usize),
    UnknownKind(usize),
    WrongLength(usize),
}

impl ReadFault {
    /// The refusal's layer, number and offset.
    pub fn report(self) -> Report
        ensures { result ≡ read_report self }
    {
        let (number, offset) = match self {
            ReadFault::TooLong => (1, 0),
            ReadFault::CutOff(at) => (2, at),
            ReadFault::UnknownKind(at) => (3, at),
            ReadFault::WrongLength(at) => (4, at),
        };
        Report {
            layer: 1,
            number,
            offset,
        }
    }
}

impl fmt::Display for ReadFault {
    ghost output = { λ fault. Some (read_text fault) };

    fn fmt<W: fmt::Write>(&self, f: &mut fmt::Formatter<W>) -> fmt::Result {
        match self {
            ReadFault::TooLong => write!(f, "the file is over {MOST_BYTES} bytes"),
            ReadFault::CutOff(_) => f.write_str("the record is cut off"),
            ReadFault::UnknownKind(_) => f.write_str("there is no such kind of record"),
            ReadFault::WrongLength(_) => f.write_str("the length is wrong for the kind"),
        }
    }
}
