ghost use Rattle.std.specs.Prelude.{◌≡◌, Some};
ghost use Rattle.letters.specs.Letters.{kind_text, letter, insertable, Decodes};

use std::fmt;

/// A letter as it stands in files, lines and outputs: its kind's number times `NUMBERS_A_KIND`, plus its own number.
pub type Letter = u8;

/// One above the largest number that the type of a letter holds.
pub const LETTER_BOUND: usize = 256;

/// How many numbers a kind has.
pub const NUMBERS_A_KIND: Letter = 32;

const RECEIVED: Letter = NUMBERS_A_KIND;

const SENT: Letter = 2 * NUMBERS_A_KIND;

const COMMAND: Letter = 3 * NUMBERS_A_KIND;

/// One time slot passing.
pub const TICK: Letter = 4 * NUMBERS_A_KIND;

/// The end of a scan cycle.
pub const END: Letter = 5 * NUMBERS_A_KIND;

/// What a letter is: a sensor signal, a message received or sent, a command to a motor, the tick, the end.
#[derive(Clone, Copy, PartialEq, Eq, Debug)]
pub enum Kind {
    Sensor,
    Received,
    Sent,
    Command,
    Tick,
    End,
}

impl fmt::Display for Kind {
    ghost output = { λ kind. Some (kind_text kind) };

    fn fmt<W: fmt::Write>(&self, f: &mut fmt::Formatter<W>) -> fmt::Result {
        f.write_str(match self {
            Kind::Sensor => "sensor",
            Kind::Received => "received",
            Kind::Sent => "sent",
            Kind::Command => "command",
            Kind::Tick => "tick",
            Kind::End => "end",
        })
    }
}

/// The kind and the number of a letter, or none where the byte is no letter.
pub fn read(byte: Letter) -> Option<(Kind, Letter)>
    ensures exact { result ≡ letter byte }
    ensures decodes { Decodes byte result }
{
    match byte {
        0..RECEIVED => Some((Kind::Sensor, byte)),
        RECEIVED..SENT => Some((Kind::Received, byte - RECEIVED)),
        SENT..COMMAND => Some((Kind::Sent, byte - SENT)),
        COMMAND..TICK => Some((Kind::Command, byte - COMMAND)),
        TICK..END if byte == TICK => Some((Kind::Tick, 0)),
        END.. if byte == END => Some((Kind::End, 0)),
        TICK.. => None,
    }
}

/// Whether the byte is a letter that a guard may insert: a message sent, a command or the tick.
pub fn may_insert(byte: Letter) -> bool
    ensures { result ≡ insertable byte }
{
    matches!(
        read(byte),
        Some((Kind::Sent | Kind::Command | Kind::Tick, _))
    )
}
