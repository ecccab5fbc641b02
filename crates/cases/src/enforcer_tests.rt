use crate::plate::PLATE;
use enforcer::enforce::{Limit, enforce};
use enforcer::fault::EnforcerFault;
use guard::refusal::Refusal;
use guard::runs::{Call, Reply, Run};
use letters::letter::END;
use property::fault::PropertyFault;
use rules::fault::RuleFault;
use std::alloc::Global;
use std::process::Abort;
use std::test::Fail;
use synthesis::fault::SynthesisFault;

/// What calls come to under the property of a file with a limit.
fn run(heap: Global, file: &[u8], limit: Limit, calls: &[Call]) -> Result<Run, EnforcerFault> {
    let mut table = [0; 45];
    let mut work = [0; 20];
    enforce(heap, file, limit, &mut table, &mut work, calls)
}

/// Expects a refusal of a file or its limit.
fn refuses(rt: &impl Abort, run: Result<Run, EnforcerFault>, fault: EnforcerFault, number: u8) {
    assert_eq!(rt; run.err(), Some(fault));
    assert_eq!(rt; fault.number(), Some(number));
}

/// Release before turning back is dropped, and a close turns back first.
#[test]
fn plate(rt: HostRuntime) -> Result<(), Fail> {
    let calls = [
        Call::Begin,
        Call::Act(96, 1),
        Call::Act(97, 1),
        Call::Act(99, 0),
        Call::Close(2),
        Call::Close(3),
    ];
    let replies = [
        Reply::Begun,
        Reply::Passed,
        Reply::Passed,
        Reply::Dropped,
        Reply::Refused(Refusal::Short),
        Reply::Closed(3),
    ];
    for limit in [Limit::Unlimited, Limit::Standard] {
        let run = run(rt.alloc(), &PLATE, limit, &calls)?;
        assert_eq!(rt; run.replies.as_slice(), replies.as_slice());
        assert_eq!(rt; run.line.as_slice(), [96, 97, 98, 99, END].as_slice());
    }
    Ok(())
}

/// Under a cap of 2 there is no room to turn.
#[test]
fn capped_plate(rt: HostRuntime) -> Result<(), Fail> {
    let calls = [
        Call::Begin,
        Call::Act(96, 1),
        Call::Act(97, 1),
        Call::Act(99, 1),
        Call::Close(1),
    ];
    let replies = [
        Reply::Begun,
        Reply::Passed,
        Reply::Dropped,
        Reply::Passed,
        Reply::Closed(1),
    ];
    let run = run(rt.alloc(), &PLATE, Limit::Letters(2), &calls)?;
    assert_eq!(rt; run.replies.as_slice(), replies.as_slice());
    assert_eq!(rt; run.line.as_slice(), [96, 99, END].as_slice());
    Ok(())
}

#[test]
fn refusals(rt: HostRuntime) {
    let number = EnforcerFault::Limit(RuleFault::Number);
    refuses(
        &rt,
        run(rt.alloc(), &PLATE, Limit::Letters(1), &[]),
        number,
        16,
    );
    refuses(
        &rt,
        run(rt.alloc(), &PLATE, Limit::Letters(256), &[]),
        number,
        16,
    );
    let empty = EnforcerFault::File(SynthesisFault::Property(PropertyFault::NoProperty(0)));
    refuses(&rt, run(rt.alloc(), &[], Limit::Unlimited, &[]), empty, 11);
}
