ghost use Rattle.std.specs.Prelude.{◌≡◌, ℕ, ◌<◌, true, false, length, Some};
ghost use Rattle.synthesis.specs.Marks.{Marked, Into, Marking, Exact, if_marked, onward, zeros};
ghost use Rattle.synthesis.specs.Numbers.{Numbered, Followed, Grown, Rows};

use crate::source::Source;
use letters::letter::Letter;
use places::places::Places;

// Places are widened by `as` where they index. Tried with `usize::from`: thirteen functions lost their proofs, and an index
// reads no plainer with it.

/// The place, if it is marked.
pub(crate) fn if_marked(place: Option<u16>, marks: &[u16]) -> Option<u16>
    ensures { result ≡ if_marked marks.now place }
{
    place.filter(|q| marks.get(*q as usize).is_some_and(|mark| *mark != 0))
}

impl<P: Places> Source<'_, P> {
    /// The marked place that a letter leads to from a place.
    pub(crate) fn onward(&self, letter: Letter, marks: &[u16], place: u16) -> Option<u16>
        requires { place < (P.Places.meaning self.now.places.now).size }
        ensures { result ≡ onward (P.Places.meaning self.now.places.now) marks.now place letter }
    {
        if_marked(self.places.following(place, letter), marks)
    }

    /// Whether some letter leads from a place to a marked one.
    fn leads_to(&self, marks: &[u16], place: u16) -> bool
        requires { place < (P.Places.meaning self.now.places.now).size }
        ensures yes { result ≡ true → Into (P.Places.meaning self.now.places.now) marks.now place }
        ensures nay { result ≡ false → Into (P.Places.meaning self.now.places.now) marks.now place → ⊥ }
    {
        self.letters
            .iter()
            .any(|letter| self.onward(*letter, marks, place).is_some())
    }

    /// Marks each place that leads to a marked one; answers whether a mark was added.
    fn mark_more(&self, marks: &mut [u16]) -> bool
        requires { Marking (P.Places.meaning self.now.places.now) marks.old }
        ensures marking { Marking (P.Places.meaning self.now.places.now) marks.new }
        ensures more { result ≡ true → zeros marks.new < zeros marks.old }
        ensures done { result ≡ false → (p : ℕ) → p < (P.Places.meaning self.now.places.now).size → Into (P.Places.meaning self.now.places.now) marks.new p → Marked marks.new p }
    {
        let mut added = false;
        // A place is a number; the marks are read as a whole while one of them is set, so they cannot be gone through.
        for place in 0..self.places.size() {
            if marks[place as usize] == 0 && self.leads_to(marks, place) {
                marks[place as usize] = 1;
                added = true;
            }
        }
        added
    }

    /// Marks exactly the live places.
    pub(crate) fn mark_live(&self, marks: &mut [u16])
        requires { length marks.old ≡ (P.Places.meaning self.now.places.now).size }
        ensures { Exact (P.Places.meaning self.now.places.now) marks.new }
    {
        marks.fill(0);
        marks[self.places.boundary() as usize] = 1;
        while self.mark_more(marks) {}
    }

    /// Gives the live place that a letter leads to a row, unless it has one; answers the number of rows.
    fn number_by(
        &self,
        letter: Letter,
        live: &[u16],
        rows: &mut [u16],
        order: &mut [u16],
        count: u16,
        place: u16,
    ) -> u16
        requires live_len { length live.now ≡ (P.Places.meaning self.now.places.now).size }
        requires numbering { Numbered (P.Places.meaning self.now.places.now) live.now rows.old order.old count }
        requires marked { Marked rows.old place }
        ensures numbered { Numbered (P.Places.meaning self.now.places.now) live.now rows.new order.new result }
        ensures grown { Grown rows.old order.old count rows.new order.new result }
        ensures followed { (q : ℕ) → (P.Places.meaning self.now.places.now).next place letter ≡ Some q → Marked live.now q → Marked rows.new q }
    {
        match self.onward(letter, live, place) {
            Some(next) if rows[next as usize] == 0 => {
                rows[next as usize] = count + 1;
                order[count as usize] = next;
                count + 1
            }
            _ => count,
        }
    }

    /// Gives each live place that a letter leads to a row.
    fn number_from(
        &self,
        live: &[u16],
        rows: &mut [u16],
        order: &mut [u16],
        count: u16,
        place: u16,
    ) -> u16
        requires live_len { length live.now ≡ (P.Places.meaning self.now.places.now).size }
        requires numbering { Numbered (P.Places.meaning self.now.places.now) live.now rows.old order.old count }
        requires marked { Marked rows.old place }
        ensures numbered { Numbered (P.Places.meaning self.now.places.now) live.now rows.new order.new result }
        ensures grown { Grown rows.old order.old count rows.new order.new result }
        ensures followed { Followed (P.Places.meaning self.now.places.now) live.now rows.new place }
    {
        let mut found = count;
        for letter in self.letters {
            found = self.number_by(*letter, live, rows, order, found, place);
        }
        found
    }

    /// Numbers the live places that are reached from the boundary, which is row 0; answers how many there are.
    pub(crate) fn number(&self, live: &[u16], rows: &mut [u16], order: &mut [u16]) -> u16
        requires exact { Exact (P.Places.meaning self.now.places.now) live.now }
        requires rows_len { length rows.old ≡ (P.Places.meaning self.now.places.now).size }
        requires order_len { length order.old ≡ (P.Places.meaning self.now.places.now).size }
        ensures { Rows (P.Places.meaning self.now.places.now) rows.new order.new result }
    {
        rows.fill(0);
        let boundary = self.places.boundary();
        rows[boundary as usize] = 1;
        order[0] = boundary;
        let mut count = 1;
        let mut head = 0;
        // Rows are added while the loop goes over them, so that no slice or range has them all before.
        while head < count {
            let place = order[head as usize];
            count = self.number_from(live, rows, order, count, place);
            head += 1;
        }
        count
    }
}
