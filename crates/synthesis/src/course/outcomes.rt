ghost use Rattle.std.specs.Prelude.{◌≡◌, ℕ, ◌<◌, min, length, slice_index_or};
ghost use Rattle.property.specs.Sized.{most_size};
ghost use Rattle.places.specs.Walks.{meet, shift};
ghost use Rattle.places.specs.declared.outcome.Outcome.TheVariants.{Dead};
ghost use Rattle.synthesis.specs.Outcomes.{after_first, lapped, kept};

use letters::alphabet::MOST_LETTERS;
use places::outcome::Outcome;
use property::sizes::MOST_SIZE;

/// A place as it is kept.
fn kept_place(place: u32) -> u16
    ensures { result ≡ min place most_size }
{
    // Not by one function with a kept size, which is cut one higher: with the bound as a parameter it would be no plainer than
    // this line.
    place.min(u32::from(MOST_SIZE)) as u16
}

/// An outcome with its place further on.
pub(crate) fn shifted(by: u16, outcome: Outcome) -> Outcome
    ensures { result ≡ kept (shift by outcome) }
{
    match outcome {
        Outcome::At(place) => Outcome::At(kept_place(u32::from(by) + u32::from(place))),
        Outcome::Dead | Outcome::Done => outcome,
    }
}

/// Where a Sequence stands, from the outcome of its first node; its second, of `size` places, starts with `second`.
pub(crate) fn after_first(size: u16, second: Outcome, first: Outcome) -> Outcome
    ensures { second ≡ kept second → result ≡ kept (after_first size second first) }
{
    match first {
        Outcome::Dead => Outcome::Dead,
        Outcome::Done => second,
        Outcome::At(_) => shifted(size, first),
    }
}

/// Where two nodes stand together, the second of `size` places.
pub(crate) fn met(size: u16, first: Outcome, second: Outcome) -> Outcome
    ensures { result ≡ kept (meet size first second) }
{
    match (first, second) {
        (Outcome::Done, Outcome::Done) => Outcome::Done,
        (Outcome::At(p), Outcome::At(q)) => {
            Outcome::At(kept_place(u32::from(p) * u32::from(size) + u32::from(q)))
        }
        _ => Outcome::Dead,
    }
}

/// Where a Lap stands, from where its node starts and the outcome of its node.
pub(crate) fn lapped(start: Outcome, outcome: Outcome) -> Outcome
    ensures { result ≡ lapped start outcome }
{
    match (start, outcome) {
        (Outcome::At(_), Outcome::Done) => start,
        (Outcome::At(_), Outcome::At(_)) => outcome,
        _ => Outcome::Dead,
    }
}

/// Changes each outcome by the step.
pub(crate) fn change_all<F: Fn(Outcome) -> Outcome>(out: &mut [Outcome; MOST_LETTERS], step: F)
    requires { F.IsAlwaysCallable step }
    ensures { (j : ℕ) → j < length out.new → F.post step (slice_index_or out.old j Dead) (slice_index_or out.new j Dead) }
{
    for outcome in out.iter_mut() {
        *outcome = step(*outcome);
    }
}

/// Joins the outcomes of two nodes that stand together, the second of `size` places.
pub(crate) fn meet_all(
    size: u16,
    out: &mut [Outcome; MOST_LETTERS],
    others: &[Outcome; MOST_LETTERS],
)
    ensures { (j : ℕ) → j < length out.new → slice_index_or out.new j Dead ≡ kept (meet size (slice_index_or out.old j Dead) (slice_index_or others.now j Dead)) }
{
    // By number: tried with a `zip`, but of what is written through `iter_mut` under it a proof learns no element.
    for (j, outcome) in out.iter_mut().enumerate() {
        *outcome = met(size, *outcome, others[j]);
    }
}
