use guard::calls::{Answer, MOST_ACTS, Running, start};
use guard::refusal::Refusal;
use guard::runs::{Call, Guard, Reply, run_calls};
use letters::alphabet::{Alphabet, Barred};
use letters::letter::{END, Letter, TICK};
use rules::cap::Cap;
use rules::count::Count;
use rules::fault::RuleFault;
use rules::rule::Rule;
use std::process::Abort;
use std::test::Fail;

/// A letter of the test alphabets.
const CLAMP: Letter = 96;

/// The alphabet of clamp, tick and end.
fn clamp_alphabet() -> Result<Alphabet, Fail> {
    let mut alphabet = Alphabet::new();
    alphabet.declare(&[CLAMP])?;
    Ok(alphabet)
}

/// Closes a cycle, and gives the number of letters written, or the refusal.
fn closed<R: Rule>(running: Running, rule: &R, out: &mut [Letter]) -> Result<usize, Refusal> {
    match running.close(rule, out) {
        Ok((_resting, count)) => Ok(count),
        Err((_running, refusal)) => Err(refusal),
    }
}

/// Closes a cycle, expects a refusal, and gives the guard back.
fn expect_refused<R: Rule>(
    rt: &impl Abort,
    running: Running,
    rule: &R,
    out: &mut [Letter],
    refusal: Refusal,
) -> Result<Running, Fail> {
    match running.close(rule, out) {
        Ok((_resting, _)) => Err(Fail::new("closed")),
        Err((running, found)) => {
            assert_eq!(rt; found, refusal);
            Ok(running)
        }
    }
}

#[test]
fn passes_and_drops(rt: HostRuntime) -> Result<(), Fail> {
    let alphabet = clamp_alphabet()?;
    let rule = Count::new(&alphabet, 2)?;
    let mut out = [7u8; 3];
    let mut running = start(&rule).begin();
    assert_eq!(rt; running.act(&rule, CLAMP, &mut out), Ok(Answer::Passed));
    assert_eq!(rt; out.as_slice(), [CLAMP, 7, 7].as_slice());
    assert_eq!(rt;
        running.act(&rule, CLAMP + 1, &mut out),
        Ok(Answer::Dropped)
    );
    assert_eq!(rt; running.act(&rule, TICK, &mut out), Ok(Answer::Passed));
    assert_eq!(rt; out.as_slice(), [TICK, 7, 7].as_slice());
    assert_eq!(rt; running.act(&rule, TICK, &mut out), Ok(Answer::Dropped));
    assert_eq!(rt; out.as_slice(), [TICK, 7, 7].as_slice());
    assert_eq!(rt; closed(running, &rule, &mut out), Ok(1));
    assert_eq!(rt; out.as_slice(), [END, 7, 7].as_slice());
    Ok(())
}

#[test]
fn refused_acts(rt: HostRuntime) -> Result<(), Fail> {
    let alphabet = clamp_alphabet()?;
    let rule = Count::new(&alphabet, 2)?;
    let mut out = [7u8; 1];
    let mut running = start(&rule).begin();
    assert_eq!(rt;
        running.act(&rule, TICK + 1, &mut []),
        Err(Refusal::NoLetter)
    );
    assert_eq!(rt; running.act(&rule, END, &mut []), Err(Refusal::EndOffered));
    assert_eq!(rt; running.act(&rule, CLAMP, &mut []), Err(Refusal::Short));
    assert_eq!(rt; running.act(&rule, CLAMP + 1, &mut []), Ok(Answer::Dropped));
    assert_eq!(rt; running.act(&rule, CLAMP, &mut out), Ok(Answer::Passed));
    assert_eq!(rt; out[0], CLAMP);
    Ok(())
}

#[test]
fn full_cycle(rt: HostRuntime) -> Result<(), Fail> {
    let alphabet = clamp_alphabet()?;
    let rule = Count::new(&alphabet, 1)?;
    let mut out = [7u8; 1];
    let mut running = start(&rule).begin();
    for _ in 0..MOST_ACTS {
        assert_eq!(rt; running.act(&rule, CLAMP + 1, &mut []), Ok(Answer::Dropped));
    }
    assert_eq!(rt; running.act(&rule, CLAMP + 1, &mut out), Err(Refusal::Full));
    assert_eq!(rt; running.act(&rule, CLAMP, &mut out), Err(Refusal::Full));
    assert_eq!(rt; running.act(&rule, END, &mut out), Err(Refusal::EndOffered));
    assert_eq!(rt; out[0], 7);
    assert_eq!(rt; closed(running, &rule, &mut out), Ok(1));
    Ok(())
}

#[test]
fn foreign_places(rt: HostRuntime) -> Result<(), Fail> {
    let alphabet = clamp_alphabet()?;
    let large = Count::new(&alphabet, 9)?;
    let small = Count::new(&alphabet, 8)?;
    let mut out = [7u8; 1];
    let mut running = start(&large).begin();
    assert_eq!(rt;
        running.act(&small, TICK + 1, &mut out),
        Err(Refusal::NotLive)
    );
    let mut running = expect_refused(&rt, running, &small, &mut [], Refusal::NotLive)?;
    assert_eq!(rt; out[0], 7);
    assert_eq!(rt; running.act(&large, CLAMP, &mut out), Ok(Answer::Passed));
    assert_eq!(rt; running.act(&small, CLAMP, &mut out), Ok(Answer::Passed));
    Ok(())
}

#[test]
fn close_outputs(rt: HostRuntime) -> Result<(), Fail> {
    let alphabet = clamp_alphabet()?;
    let rule = Cap::new(Count::new(&alphabet, 9)?, 2)?;
    let mut out = [7u8; 2];
    let running = start(&rule).begin();
    let running = expect_refused(&rt, running, &rule, &mut [], Refusal::Short)?;
    assert_eq!(rt; closed(running, &rule, &mut out[..1]), Ok(1));
    assert_eq!(rt; out.as_slice(), [END, 7].as_slice());
    Ok(())
}

#[test]
fn refusal_numbers(rt: HostRuntime) {
    assert_eq!(rt; Refusal::NotLive.number(), 20);
    assert_eq!(rt; Refusal::NoLetter.number(), 21);
    assert_eq!(rt; Refusal::EndOffered.number(), 22);
    assert_eq!(rt; Refusal::Full.number(), 23);
    assert_eq!(rt; Refusal::Short.number(), 24);
}

#[test]
fn two_cycles(rt: HostRuntime) -> Result<(), Fail> {
    let alphabet = clamp_alphabet()?;
    let rule = Cap::new(Count::new(&alphabet, 9)?, 1)?;
    let calls = [
        Call::Act(CLAMP, 1),
        Call::Close(1),
        Call::Begin,
        Call::Begin,
        Call::Act(CLAMP, 4),
        Call::Act(CLAMP, 4),
        Call::Act(END, 4),
        Call::Close(0),
        Call::Close(4),
        Call::Begin,
        Call::Act(TICK, 0),
        Call::Act(TICK, 1),
    ];
    let expected = [
        Reply::NoCall,
        Reply::NoCall,
        Reply::Begun,
        Reply::NoCall,
        Reply::Passed,
        Reply::Dropped,
        Reply::Refused(Refusal::EndOffered),
        Reply::Refused(Refusal::Short),
        Reply::Closed(1),
        Reply::Begun,
        Reply::Refused(Refusal::Short),
        Reply::Passed,
    ];
    let run = run_calls(rt.alloc(), &rule, &calls)?;
    assert_eq!(rt; run.replies.as_slice(), expected.as_slice());
    assert_eq!(rt; run.line.as_slice(), [CLAMP, END, TICK].as_slice());
    assert!(rt; matches!(run.guard, Guard::InCycle(_)));
    Ok(())
}
