ghost use Rattle.std.specs.Prelude.{◌≡◌, ℕ, ◌<◌, ◌≤◌, true, false, length, is_some, slice_index, Some};
ghost use Rattle.rules.specs.Tabled.{no_row};
ghost use Rattle.places.specs.Owing.{LoopSpan};
ghost use Rattle.synthesis.specs.Marks.{Marked};
ghost use Rattle.synthesis.specs.Numbers.{Rowed};
ghost use Rattle.synthesis.specs.Weights.{Owes, Spans, Inserts, GoesOn, OwedAt, Stranded, beyond, owed_by, span_by};

use crate::source::Source;
use letters::letter::{END, Letter, may_insert};
use places::places::Places;

// Places are widened by `as` where they index. Tried with `usize::from`: thirteen functions lost their proofs, and an index
// reads no plainer with it. What the rows are is no ghost field: such a field holds only
// facts with one proof, and this one has a list that leads to each place, which may be one of several.

impl<P: Places> Source<'_, P> {
    /// One more than the number of the place with a row that the letter leads to.
    fn beyond(&self, letter: Letter, rows: &[u16], numbers: &[u16], place: u16) -> Option<u16>
        requires inside { place < (P.Places.meaning self.now.places.now).size }
        requires numbers_len { length numbers.now ≡ length rows.now }
        requires small { (q : ℕ) → (P.Places.meaning self.now.places.now).next place letter ≡ Some q → Marked rows.now q → slice_index numbers.now q < no_row }
        ensures { result ≡ beyond (P.Places.meaning self.now.places.now) rows.now numbers.now place letter }
    {
        let next = self.onward(letter, rows, place)?;
        Some(numbers[next as usize] + 1)
    }

    /// What the place owes by way of the letter, if it is insertable and leads to a place with a row.
    fn owed_by(&self, letter: Letter, rows: &[u16], owed: &[u16], place: u16) -> Option<u16>
        requires inside { place < (P.Places.meaning self.now.places.now).size }
        requires owed_len { length owed.now ≡ length rows.now }
        requires small { (q : ℕ) → Inserts (P.Places.meaning self.now.places.now) rows.now place letter q → slice_index owed.now q < no_row }
        ensures { result ≡ owed_by (P.Places.meaning self.now.places.now) rows.now owed.now place letter }
    {
        if may_insert(letter) {
            self.beyond(letter, rows, owed, place)
        } else {
            None
        }
    }

    /// What the place owes, or none where it has no insertable way to an end.
    fn owed_at(&self, rows: &[u16], owed: &[u16], place: u16) -> Option<u16>
        requires rowed { Rowed (P.Places.meaning self.now.places.now) rows.now }
        requires owes { Owes (P.Places.meaning self.now.places.now) rows.now owed.now place }
        requires marked { Marked rows.now place }
        ensures { OwedAt (P.Places.meaning self.now.places.now) place result }
    {
        if self.onward(END, rows, place).is_some() {
            return Some(0);
        }
        self.letters
            .iter()
            .filter_map(|letter| self.owed_by(*letter, rows, owed, place))
            .min()
    }

    /// The span of the place by way of the letter, if it is not the end and leads to a place with a row.
    fn span_by(&self, letter: Letter, rows: &[u16], span: &[u16], place: u16) -> Option<u16>
        requires inside { place < (P.Places.meaning self.now.places.now).size }
        requires span_len { length span.now ≡ length rows.now }
        requires small { (q : ℕ) → GoesOn (P.Places.meaning self.now.places.now) rows.now place letter q → slice_index span.now q < no_row }
        ensures { result ≡ span_by (P.Places.meaning self.now.places.now) rows.now span.now place letter }
    {
        if letter == END {
            None
        } else {
            self.beyond(letter, rows, span, place)
        }
    }

    /// The span of the place.
    fn span_at(&self, rows: &[u16], span: &[u16], place: u16) -> u16
        requires rowed { Rowed (P.Places.meaning self.now.places.now) rows.now }
        requires spans { Spans (P.Places.meaning self.now.places.now) rows.now span.now place }
        requires marked { Marked rows.now place }
        ensures low { result ≤ place }
        ensures found { LoopSpan (P.Places.meaning self.now.places.now) place result }
    {
        self.letters
            .iter()
            .filter_map(|letter| self.span_by(*letter, rows, span, place))
            .max()
            .unwrap_or(0)
    }

    /// Weighs each place with a row, in ascending order: what it owes and its span; none where one has no insertable way to
    /// an end.
    pub(crate) fn weigh(&self, rows: &[u16], owed: &mut [u16], span: &mut [u16]) -> Option<()>
        requires rowed { Rowed (P.Places.meaning self.now.places.now) rows.now }
        requires owed_len { length owed.old ≡ (P.Places.meaning self.now.places.now).size }
        requires span_len { length span.old ≡ (P.Places.meaning self.now.places.now).size }
        ensures owes { is_some result ≡ true → Owes (P.Places.meaning self.now.places.now) rows.now owed.new (P.Places.meaning self.now.places.now).size }
        ensures spans { is_some result ≡ true → Spans (P.Places.meaning self.now.places.now) rows.now span.new (P.Places.meaning self.now.places.now).size }
        ensures stranded { is_some result ≡ false → Stranded (P.Places.meaning self.now.places.now) }
    {
        // A place is a number; its two numbers are worked out from those before them in the same slices.
        for place in 0..self.places.size() {
            if rows[place as usize] != 0 {
                owed[place as usize] = self.owed_at(rows, owed, place)?;
                span[place as usize] = self.span_at(rows, span, place);
            }
        }
        Some(())
    }
}
