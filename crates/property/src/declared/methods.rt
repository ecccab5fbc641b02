ghost use Rattle.std.specs.Prelude.{◌≡◌, false, [], ◌∷◌, ◌++◌, length, None};
ghost use Rattle.letters.specs.Alphabets.{barred, first_barred};
ghost use Rattle.property.specs.Checks.{least_past};
ghost use Rattle.property.specs.Drafts.{declared_in};

use crate::declared::Declared;
use letters::alphabet::{MOST_DECLARED, is_barred};
use letters::letter::Letter;

impl Declared {
    /// No letters.
    pub(crate) fn new() -> Self
        ensures { declared_in result ≡ [] }
    {
        Declared {
            letters: [0; MOST_DECLARED],
            count: 0,
        }
    }

    /// The letters in order.
    pub(crate) fn letters(&self) -> &[Letter]
        ensures same { result.now ≡ declared_in self.now }
        ensures lawful { first_barred 0 0 result.now ≡ None }
    {
        &self.letters[0..self.count]
    }

    /// One above the last letter, or 0 where there is none.
    // A bound, and not an Option: it is the least letter that may be declared next.
    fn least(&self) -> usize
        ensures { result ≡ least_past (declared_in self.now) }
    {
        self.letters()
            .last()
            .map_or(0, |last| usize::from(*last) + 1)
    }

    /// Whether a byte may not be declared next.
    pub(crate) fn bars(&self, byte: Letter) -> bool
        ensures { result ≡ barred (least_past (declared_in self.now)) (length (declared_in self.now)) byte }
    {
        is_barred(self.least(), self.count, byte)
    }

    /// Puts a letter after the others.
    pub(crate) fn push(&mut self, byte: Letter)
        requires { barred (least_past (declared_in self.old)) (length (declared_in self.old)) byte ≡ false }
        ensures { declared_in self.new ≡ declared_in self.old ++ byte ∷ [] }
    {
        let count = self.count;
        self.letters[count] = byte;
        self.count = count + 1;
    }
}
