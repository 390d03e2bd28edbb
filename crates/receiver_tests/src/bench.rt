// The receiver of the bench: its catalogue, ranges and item 0 needs item 1, a table for BBR, and no Flash.
use catalogue::bench_catalogue;
use frame::{Frame, write_frame};
use layer::Absent;
use receiver::{ANSWER_ROOM, Parts, Receiver};
use reference::{Answered, Telling};
use rule::{Both, Needs, Ranges, bench_rule};
use std::process::Abort;
use std::test::Fail;
use store::SlotTable;

pub(crate) type Bench = Receiver<SlotTable, Absent, Both<Ranges, Needs>>;

pub(crate) const ADDRESS: u32 = 0x2051_0001;

pub(crate) const RAM: u8 = 0;

pub(crate) const BBR: u8 = 1;

pub(crate) fn bench_parts() -> Parts<SlotTable, Absent, Both<Ranges, Needs>> {
    Parts {
        bbr: SlotTable::new(),
        flash: Absent,
        rule: bench_rule(),
    }
}

pub(crate) fn bench() -> Bench {
    Receiver::make(&bench_catalogue(), bench_parts())
}

// How the frame was told that an answering told.
pub(crate) fn telling_of(answered: Answered) -> Result<Telling, Fail> {
    answered.told.ok_or_else(|| Fail::new("no frame is whole"))
}

// How much noise was dropped by an answering that found no whole frame.
pub(crate) fn noise_of(answered: Answered) -> Result<usize, Fail> {
    if answered.told.is_some() {
        return Err(Fail::new("a frame was told"));
    }
    Ok(answered.noise)
}

// The receiver takes these bytes and answers them with those; answers the refusal's number, 0 where the frame is granted.
// kept: by number, as the docs name refusals, so that the numbers are tested too
pub(crate) fn exchange(
    rt: &impl Abort,
    receiver: &mut Bench,
    line: &[u8],
    reply: &[u8],
) -> Result<u8, Fail> {
    let mut out = [0u8; ANSWER_ROOM];
    assert_eq!(rt; receiver.take(line)?, line.len());
    let telling = telling_of(receiver.answer(&mut out)?)?;
    assert_eq!(rt; telling.length, reply.len());
    let count = reply.len().min(ANSWER_ROOM);
    assert!(rt; &out[0..count] == reply);
    Ok(telling.verdict.number())
}

// The receiver takes a configuration frame with this payload and answers it; answers the refusal's number, 0 where it is granted.
pub(crate) fn send(
    rt: &impl Abort,
    receiver: &mut Bench,
    id: u8,
    payload: &[u8],
) -> Result<u8, Fail> {
    let mut line = [0u8; 40];
    let frame = Frame {
        class: 0x06,
        id,
        payload,
    };
    let size = write_frame(&mut line, &frame)?;
    let count = size.min(40);
    assert_eq!(rt; receiver.take(&line[0..count])?, size);
    let mut out = [0u8; ANSWER_ROOM];
    let telling = telling_of(receiver.answer(&mut out)?)?;
    Ok(telling.verdict.number())
}

// The number of the refusal of an answering with room for so many bytes, 0 where it is served.
pub(crate) fn answer_number(receiver: &mut Bench, room: usize) -> u8 {
    let mut out = [0u8; ANSWER_ROOM];
    let count = room.min(ANSWER_ROOM);
    receiver
        .answer(&mut out[0..count])
        .map_or_else(|fault| fault.number(), |_| 0)
}
