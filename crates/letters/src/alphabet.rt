ghost use Rattle.std.specs.Prelude.{◌≡◌, ◌≤◌, true, take};
ghost use Rattle.letters.specs.Alphabets.{lawful, most_letters};

pub use crate::alphabet::methods::{contains, index_of, is_barred};
use crate::letter::Letter;

mod methods;

/// The most letters that an alphabet holds.
pub const MOST_LETTERS: usize = 32;

/// The most letters that a declaration names: tick and end are not declared.
pub const MOST_DECLARED: usize = MOST_LETTERS - 2;

/// The letters that a rule speaks of: strictly ascending, with tick and end among them.
// A fixed array with its length beside it, since the crates of letters, files, rules and tables use no heap.
#[derive(Drop)]
pub struct Alphabet {
    letters: [Letter; MOST_LETTERS],
    count: usize,
    ghost within: { count ≤ most_letters },
    ghost ok: { lawful (take count letters) ≡ true },
}

/// The first byte of a declaration that may not stand there, by its place in the bytes.
#[derive(Clone, Copy, PartialEq, Eq, Debug)]
pub struct Barred {
    pub offset: usize,
}
