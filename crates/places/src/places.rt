ghost use Rattle.std.specs.Prelude.{◌≡◌, ◌+◌, ◌<◌, ◌≤◌, min};
ghost use Rattle.places.specs.Loops.{Loop, most_size};

use letters::letter::Letter;

/// The most places that a table is made for: as many as a size counts.
pub use property::sizes::MOST_SIZE;

/// A loop of places, as a table is filled from it.
pub trait Places {
    ghost meaning: { Self → Loop };

    /// The number of places, or one above `MOST_SIZE` where there are more.
    fn size(&self) -> u16
        ensures { result ≡ min (meaning self.now).size (most_size + 1) };

    /// The boundary.
    fn boundary(&self) -> u16
        ensures { (meaning self.now).size ≤ most_size → result ≡ (meaning self.now).boundary };

    /// The place that follows a place after a letter.
    fn following(&self, place: u16, letter: Letter) -> Option<u16>
        ensures { (meaning self.now).size ≤ most_size → place < (meaning self.now).size → result ≡ (meaning self.now).next place letter };
}
