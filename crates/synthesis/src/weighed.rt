ghost use Rattle.std.specs.Prelude.{◌≡◌, ◌*◌, ◌≤◌, length};

// A number, and not an Option, since what is lent has numbers of 16 bits; 0 is then for no row and no mark. How many places
// there are stands beside the four parts, since it is what their lengths are shown equal to.

/// The working memory, lent in four parts: each has a number for each place.
#[derive(Drop)]
pub(crate) struct Working<'a> {
    /// How many places there are.
    pub(crate) size: usize,
    pub(crate) owed: &'a mut [u16],
    pub(crate) rows: &'a mut [u16],
    pub(crate) order: &'a mut [u16],
    pub(crate) span: &'a mut [u16],
    ghost owed_len: { length owed.now ≡ size },
    ghost rows_len: { length rows.now ≡ size },
    ghost order_len: { length order.now ≡ size },
    ghost span_len: { length span.now ≡ size },
}

impl<'a> Working<'a> {
    /// The first four parts of a memory, for so many places.
    pub(crate) fn new(work: &'a mut [u16], size: usize) -> Self
        requires { 4 * size ≤ length work.old }
        ensures { result.size ≡ size }
    {
        let (owed, rest) = work.split_at_mut(size);
        let (rows, rest) = rest.split_at_mut(size);
        let (order, rest) = rest.split_at_mut(size);
        let (span, _) = rest.split_at_mut(size);
        Working {
            size,
            owed,
            rows,
            order,
            span,
        }
    }
}

/// The rows, and what weighs on the places that have one: each slice but `order` has a number for each place.
#[derive(Clone, Copy)]
pub(crate) struct Weighed<'a> {
    /// How many rows there are.
    pub(crate) count: u16,
    /// The number of the place's row and one, or 0 where it has none.
    pub(crate) rows: &'a [u16],
    /// The place of each row.
    pub(crate) order: &'a [u16],
    pub(crate) owed: &'a [u16],
    pub(crate) span: &'a [u16],
}
