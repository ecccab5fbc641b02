ghost use Rattle.std.specs.Prelude.{◌≡◌, None, ◌++◌};
ghost use Rattle.letters.specs.Alphabets.{among, barred, bare, first_barred, position};
ghost use Rattle.letters.specs.Declarations.{letters_of, barred_report, declared, after, Kept};

use crate::alphabet::{Alphabet, Barred, MOST_DECLARED, MOST_LETTERS};
use crate::letter::{END, Letter, TICK, read};
use crate::refusal::Report;

impl Barred {
    /// The refusal's layer, number and offset.
    pub fn report(self) -> Report
        ensures { result ≡ barred_report self }
    {
        Report {
            layer: 2,
            number: 5,
            offset: self.offset,
        }
    }
}

/// Whether a byte may not be declared as the letter with this index, where `least` is the least that ascends.
pub fn is_barred(least: usize, index: usize, byte: Letter) -> bool
    ensures { result ≡ barred least index byte }
{
    read(byte).is_none()
        || byte == TICK
        || byte == END
        || usize::from(byte) < least
        || index >= MOST_DECLARED
}

/// The place of the first byte that may not be declared, if there is one.
fn first_barred(bytes: &[Letter]) -> Option<usize>
    ensures { result ≡ first_barred 0 0 bytes.now }
{
    let mut least = 0;
    for (index, byte) in bytes.iter().enumerate() {
        if is_barred(least, index, *byte) {
            return Some(index);
        }
        least = usize::from(*byte) + 1;
    }
    None
}

/// The index of a letter in a list of letters.
pub fn index_of(letters: &[Letter], letter: Letter) -> Option<usize>
    ensures { result ≡ position letters.now letter }
{
    letters.iter().position(|l| *l == letter)
}

/// Whether a list of letters has a letter.
pub fn contains(letters: &[Letter], letter: Letter) -> bool
    ensures { result ≡ among letter letters.now }
{
    letters.contains(&letter)
}

impl Alphabet {
    /// Letters that may be declared, with tick and end, which are above them.
    #[tactic(auto, using(crate::proofs::Declaring::few_enough))]
    fn of(bytes: &[Letter]) -> Self
        requires { first_barred 0 0 bytes.now ≡ None }
        ensures { letters_of result ≡ bytes.now ++ bare }
    {
        let count = bytes.len();
        let mut letters = [0; MOST_LETTERS];
        letters[..count].copy_from_slice(bytes);
        letters[count] = TICK;
        letters[count + 1] = END;
        Alphabet {
            letters,
            count: count + 2,
        }
    }

    /// Tick and end alone.
    pub fn new() -> Self
        ensures { letters_of result ≡ bare }
    {
        Alphabet::of(&[])
    }

    /// The letters in order.
    pub fn letters(&self) -> &[Letter]
        ensures { result.now ≡ letters_of self.now }
    {
        &self.letters[0..self.count]
    }

    /// Makes this the alphabet of the bytes, with tick and end; a refusal leaves it as it was.
    pub fn declare(&mut self, bytes: &[Letter]) -> Result<(), Barred>
        ensures answer { result ≡ declared bytes.now }
        ensures written { letters_of self.new ≡ after (letters_of self.old) bytes.now }
        ensures kept { Kept result self.old self.new }
    {
        match first_barred(bytes) {
            Some(offset) => Err(Barred { offset }),
            None => {
                *self = Alphabet::of(bytes);
                Ok(())
            }
        }
    }

    /// The index of a letter among the alphabet's letters.
    pub fn position(&self, letter: Letter) -> Option<usize>
        ensures { result ≡ position (letters_of self.now) letter }
    {
        index_of(self.letters(), letter)
    }

    /// Whether the alphabet holds a letter.
    pub fn holds(&self, letter: Letter) -> bool
        ensures { result ≡ among letter (letters_of self.now) }
    {
        contains(self.letters(), letter)
    }
}
