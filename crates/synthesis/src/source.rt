ghost use Rattle.synthesis.specs.Fillable.{Fillable};

use letters::letter::Letter;
use places::places::Places;

// A place is a number, and marks and numbers of places are lent memories, so the methods ask for their bounds and lengths.

/// What a table is filled from: fair places, and the letters that lead from one to another.
#[derive(Drop)]
pub(crate) struct Source<'a, P: Places> {
    pub(crate) places: &'a P,
    pub(crate) letters: &'a [Letter],
    ghost fillable: { Fillable (P.Places.meaning places.now) letters.now },
}
