ghost use Rattle.std.specs.Prelude.{◌≡◌, ◌≤◌, false, take, is_some};
ghost use Rattle.letters.specs.Alphabets.{first_barred, most_declared};

use letters::alphabet::MOST_DECLARED;
use letters::letter::Letter;

mod methods;

/// The letters that a property has declared so far.
// A fixed array and a count, since the core uses no heap. No `Alphabet`, which has tick and end: a type for both would
// carry the facts of both.
#[derive(Drop)]
pub(crate) struct Declared {
    letters: [Letter; MOST_DECLARED],
    count: usize,
    ghost few: { count ≤ most_declared },
    ghost ok: { is_some (first_barred 0 0 (take count letters)) ≡ false },
}
