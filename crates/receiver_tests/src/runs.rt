// Several frames, restarts, replays, and a receiver that is shut.
use crate::bench::{ADDRESS, BBR, RAM, bench, bench_parts, noise_of, send};
use catalogue::bench_catalogue;
use layer::Absent;
use receiver::{ANSWER_ROOM, Parts, Receiver};
use reference::{Battery, Call};
use replay::{Event, replay};
use request::{VALGET, VALSET};
use rule::bench_rule;
use std::test::Fail;

// A set of 5 under the key 20510001, in BBR alone.
const INTO_BBR: [u8; 9] = [0x00, 0x02, 0x00, 0x00, 0x01, 0x00, 0x51, 0x20, 0x05];

// RAM alone is judged, so BBR takes a value that makes the next stack unfit.
#[test]
fn a_restart_over_an_unfit_stack(rt: HostRuntime) -> Result<(), Fail> {
    let mut receiver = bench();
    assert_eq!(rt; send(&rt, &mut receiver, VALSET, &INTO_BBR)?, 0);
    assert_eq!(rt; receiver.look(BBR, ADDRESS)?, Some(5));
    assert_eq!(rt; receiver.look(RAM, ADDRESS)?, Some(65));
    assert_eq!(rt; receiver.restart(Battery::Kept)?, Some(2));
    assert_eq!(rt; receiver.look(BBR, ADDRESS)?, Some(5));
    assert_eq!(rt; receiver.look(RAM, ADDRESS)?, Some(65));
    assert_eq!(rt; receiver.restart(Battery::Lost)?, None);
    assert_eq!(rt; receiver.look(BBR, ADDRESS)?, None);
    assert_eq!(rt; receiver.look(RAM, ADDRESS)?, Some(65));
    Ok(())
}

// 66 under 20510001 opens a transaction in RAM, 1 under 10510002 joins it, and the third frame applies both.
const OPEN: [u8; 9] = [0x01, 0x01, 0x01, 0x00, 0x01, 0x00, 0x51, 0x20, 0x42];

const JOIN: [u8; 9] = [0x01, 0x01, 0x02, 0x00, 0x02, 0x00, 0x51, 0x10, 0x01];

const APPLY: [u8; 4] = [0x01, 0x01, 0x03, 0x00];

const ENABLED: u32 = 0x1051_0002;

#[test]
fn a_transaction_is_applied_at_once(rt: HostRuntime) -> Result<(), Fail> {
    let mut receiver = bench();
    assert_eq!(rt; send(&rt, &mut receiver, VALSET, &OPEN)?, 0);
    assert_eq!(rt; send(&rt, &mut receiver, VALSET, &JOIN)?, 0);
    assert_eq!(rt; receiver.look(RAM, ADDRESS)?, Some(65));
    assert_eq!(rt; receiver.look(RAM, ENABLED)?, Some(0));
    assert_eq!(rt; send(&rt, &mut receiver, VALSET, &APPLY)?, 0);
    assert_eq!(rt; receiver.look(RAM, ADDRESS)?, Some(0x42));
    assert_eq!(rt; receiver.look(RAM, ENABLED)?, Some(1));
    // it is closed now
    assert_eq!(rt; send(&rt, &mut receiver, VALSET, &APPLY)?, 15);
    Ok(())
}

#[test]
fn a_get_cancels_a_transaction(rt: HostRuntime) -> Result<(), Fail> {
    let mut receiver = bench();
    assert_eq!(rt; send(&rt, &mut receiver, VALSET, &OPEN)?, 0);
    assert_eq!(rt;
        send(&rt, &mut receiver, VALGET, &[0, 0, 0, 0, 1, 0, 0x51, 0x20])?,
        0
    );
    assert_eq!(rt; send(&rt, &mut receiver, VALSET, &APPLY)?, 15);
    assert_eq!(rt; receiver.look(RAM, ADDRESS)?, Some(65));
    Ok(())
}

#[test]
fn a_log_has_an_event_for_each_call(rt: HostRuntime) -> Result<(), Fail> {
    let calls = [
        Call::Take(&[0x00, 0x01]),
        Call::Answer(789),
        Call::Answer(1000),
        Call::Look(RAM, ADDRESS),
        Call::Restart(Battery::Lost),
    ];
    let done = replay(rt.alloc(), &bench_catalogue(), bench_parts(), &calls)?;
    assert!(rt; done.log.len() == 5);
    let Event::Refused(_, fault) = done.log[1] else {
        return Err(Fail::new("a buffer that is too short was not refused"));
    };
    assert_eq!(rt; fault.number(), 9);
    let Event::Answered(answering) = &done.log[2] else {
        return Err(Fail::new("an answering was not logged"));
    };
    assert_eq!(rt; noise_of(answering.answered)?, 2);
    assert_eq!(rt; done.receiver.look(RAM, ADDRESS)?, Some(65));
    Ok(())
}

// A contract lets any list of calls be refused for want of memory; a long one is replayed.
#[test]
fn a_long_list_of_calls_is_replayed(rt: HostRuntime) -> Result<(), Fail> {
    let heap = rt.alloc();
    let calls = vec![in heap; Call::Look(RAM, ADDRESS); 1001]?;
    let done = replay(heap, &bench_catalogue(), bench_parts(), calls.as_slice())?;
    assert_eq!(rt; done.log.len(), 1001);
    Ok(())
}

// A receiver without BBR is shut, and refuses every call.
#[test]
fn a_shut_receiver_refuses_every_call(rt: HostRuntime) -> Result<(), Fail> {
    let parts = Parts {
        bbr: Absent,
        flash: Absent,
        rule: bench_rule(),
    };
    let mut receiver = Receiver::make(&bench_catalogue(), parts);
    let mut out = [0u8; ANSWER_ROOM];
    let taken = receiver.take(&[0x00]);
    assert_eq!(rt; taken.map_err(|fault| fault.number()), Err(8));
    let Err(fault) = receiver.answer(&mut out) else {
        return Err(Fail::new("a shut receiver answered"));
    };
    assert_eq!(rt; fault.number(), 8);
    let seen = receiver.look(RAM, ADDRESS);
    assert_eq!(rt; seen.map_err(|fault| fault.number()), Err(8));
    let restarted = receiver.restart(Battery::Kept);
    assert_eq!(rt; restarted.map_err(|fault| fault.number()), Err(8));
    Ok(())
}
