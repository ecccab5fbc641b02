/// Where a list of letters leads in a walk: it was no beginning of a trace, it was a trace, or it led to a place.
#[derive(Clone, Copy, PartialEq, Eq, Debug)]
pub enum Outcome {
    Dead,
    Done,
    At(u16),
}
