ghost use Rattle.std.specs.Prelude.{◌≡◌, length, IfOk};
ghost use Rattle.rules.specs.Meaning.{Lawful};
ghost use Rattle.rules.specs.Valued.{meaning};
ghost use Rattle.guard.specs.Histories.{step, run_of, room, number_written, Makes, Takes, Told};
ghost use Rattle.guard.specs.Runs.{Guarded};
ghost use Rattle.guard.specs.declared.runs.Call.TheVariants.{Act, Close};
ghost use Rattle.guard.specs.declared.runs.Guard.TheVariants.{InCycle};

use crate::calls::{Answer, Resting, Running, start};
use crate::refusal::Refusal;
use letters::letter::Letter;
use rules::rule::Rule;
use std::alloc::{AllocError, Global};

/// A call of a guard; an act has a letter and the length of its output, a close the length of its output.
#[derive(Clone, Copy, PartialEq, Eq, Debug)]
pub enum Call {
    Begin,
    Act(Letter, usize),
    Close(usize),
}

/// The answer to a call; a close gives the number of letters written. What the guard's state cannot take is no call.
#[derive(Clone, Copy, PartialEq, Eq, Debug)]
pub enum Reply {
    Begun,
    Passed,
    Dropped,
    Closed(usize),
    Refused(Refusal),
    NoCall,
}

/// A guard in either state.
#[derive(Drop)]
pub enum Guard {
    AtRest(Resting),
    InCycle(Running),
}

/// What a list of calls came to: the answers in order, the line, and the guard after them.
#[derive(Drop)]
pub struct Run {
    pub replies: Vec<Reply>,
    pub line: Vec<Letter>,
    pub guard: Guard,
}

impl Call {
    /// The length of the call's output.
    fn room(self) -> usize
        ensures { result ≡ room self }
    {
        match self {
            Call::Begin => 0,
            Call::Act(_, room) | Call::Close(room) => room,
        }
    }
}

impl Reply {
    /// How many letters a call with this answer wrote.
    pub fn written(self) -> usize
        ensures { result ≡ number_written self }
    {
        match self {
            Reply::Passed => 1,
            Reply::Closed(count) => count,
            Reply::Begun | Reply::Dropped | Reply::Refused(_) | Reply::NoCall => 0,
        }
    }
}

/// Offers a letter to a running guard.
fn make_act<R: Rule>(
    rule: &R,
    mut running: Running,
    letter: Letter,
    out: &mut [Letter],
) -> (Guard, Reply)
    ensures { Makes (step (meaning R.Rule rule.now) (InCycle running) (Act letter (length out.old))) result out.old out.new }
{
    let reply = match running.act(rule, letter, out) {
        Ok(Answer::Passed) => Reply::Passed,
        Ok(Answer::Dropped) => Reply::Dropped,
        Err(refusal) => Reply::Refused(refusal),
    };
    (Guard::InCycle(running), reply)
}

/// Closes a running guard's cycle.
fn make_close<R: Rule>(rule: &R, running: Running, out: &mut [Letter]) -> (Guard, Reply)
    ensures { Makes (step (meaning R.Rule rule.now) (InCycle running) (Close (length out.old))) result out.old out.new }
{
    match running.close(rule, out) {
        Ok((resting, count)) => (Guard::AtRest(resting), Reply::Closed(count)),
        Err((running, refusal)) => (Guard::InCycle(running), Reply::Refused(refusal)),
    }
}

impl Guard {
    /// Makes one call with an output of its length, and gives the guard after it and its answer.
    fn make<R: Rule>(self, rule: &R, call: Call, out: &mut [Letter]) -> (Guard, Reply)
        requires { length out.old ≡ room call }
        ensures { Makes (step (meaning R.Rule rule.now) self call) result out.old out.new }
    {
        match (self, call) {
            (Guard::AtRest(resting), Call::Begin) => {
                (Guard::InCycle(resting.begin()), Reply::Begun)
            }
            (Guard::InCycle(running), Call::Act(letter, _)) => make_act(rule, running, letter, out),
            (Guard::InCycle(running), Call::Close(_)) => make_close(rule, running, out),
            (guard, _) => (guard, Reply::NoCall),
        }
    }
}

impl Run {
    /// Makes one call with an output of its length, and adds its answer and the letters that it wrote.
    fn take<R: Rule>(self, heap: Global, rule: &R, call: Call) -> Result<Run, AllocError>
        ensures { IfOk result (Takes (step (meaning R.Rule rule.now) self.guard call) self) }
    {
        let Run {
            mut replies,
            mut line,
            guard,
        } = self;
        let mut room = vec![in heap; 0; call.room()]?;
        let out = room.as_mut_slice();
        let (guard, reply) = guard.make(rule, call, out);
        line.extend_from_slice(&out[..reply.written()])?;
        replies.push(reply)?;
        Ok(Run {
            replies,
            line,
            guard,
        })
    }
}

/// Starts a guard and makes the calls, each with an output of its own length; fails only for want of memory.
pub fn run_calls<R: Rule>(heap: Global, rule: &R, calls: &[Call]) -> Result<Run, AllocError>
    ensures told { IfOk result (Told (meaning R.Rule rule.now) calls.now) }
    ensures guarded { Lawful (meaning R.Rule rule.now) → Guarded (meaning R.Rule rule.now) (run_of (meaning R.Rule rule.now)) }
{
    let mut run = Run {
        replies: Vec::new(heap),
        line: Vec::new(heap),
        guard: Guard::AtRest(start(rule)),
    };
    for call in calls {
        run = run.take(heap, rule, *call)?;
    }
    Ok(run)
}
