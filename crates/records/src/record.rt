ghost use Rattle.std.specs.Prelude.{◌≡◌, Some};
ghost use Rattle.records.specs.Records.{body_of, record_text};

use std::fmt;

/// A record of a property file, by its kind, with its body where the file has it.
#[derive(Clone, Copy)]
pub enum Record<'a> {
    Letter(&'a [u8]),
    Nothing(&'a [u8]),
    Choice(&'a [u8]),
    Sequence(&'a [u8]),
    Both(&'a [u8]),
    Lap(&'a [u8]),
    All(&'a [u8]),
}

impl<'a> Record<'a> {
    /// The body, a part of the file.
    pub fn body(self) -> &'a [u8]
        ensures { result.now ≡ body_of self.entry }
    {
        match self {
            Record::Letter(body)
            | Record::Nothing(body)
            | Record::Choice(body)
            | Record::Sequence(body)
            | Record::Both(body)
            | Record::Lap(body)
            | Record::All(body) => body,
        }
    }
}

impl<'a> fmt::Display for Record<'a> {
    ghost output = { λ record_is. Some (record_text record_is) };

    fn fmt<W: fmt::Write>(&self, f: &mut fmt::Formatter<W>) -> fmt::Result {
        f.write_str(match self {
            Record::Letter(_) => "Letter",
            Record::Nothing(_) => "Nothing",
            Record::Choice(_) => "Choice",
            Record::Sequence(_) => "Sequence",
            Record::Both(_) => "Both",
            Record::Lap(_) => "Lap",
            Record::All(_) => "All",
        })
    }
}
