ghost use Rattle.std.specs.Prelude.{◌≡◌, ◌<◌, IfOk};
ghost use Rattle.rules.specs.Meaning.{Meaning, Lawful};
ghost use Rattle.guard.specs.Histories.{run_of};
ghost use Rattle.enforcer.specs.Offers.{offered, calls_of, BeginsAtRest};

use guard::runs::Call;
use letters::letter::{END, Letter};
use std::alloc::{AllocError, Global};

/// The call that offers a letter with an output of `room`.
fn offered(letter: Letter, room: usize) -> Call
    ensures { result ≡ offered room letter }
{
    if letter == END {
        Call::Close(room)
    } else {
        Call::Act(letter, room)
    }
}

/// The calls that offer letters one after the other, each with an output of `room`: a cycle is begun before each offer
/// made at rest; the end is offered by a close, any other byte by an act.
pub fn calls_of(heap: Global, offers: &[Letter], room: usize) -> Result<Vec<Call>, AllocError>
    ensures calls { IfOk result (λ v. v.items ≡ calls_of room offers.now) }
    ensures begins { (m : Meaning) → Lawful m → m.most < room → BeginsAtRest (run_of m (calls_of room offers.now)) }
{
    let mut calls = Vec::new(heap);
    // A flag and one loop: cut at the ends, the offers would take two loops, and the last piece need not have an end.
    let mut open = false;
    for letter in offers {
        if !open {
            calls.push(Call::Begin)?;
        }
        calls.push(offered(*letter, room))?;
        open = *letter != END;
    }
    Ok(calls)
}
