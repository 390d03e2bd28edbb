// One frame at a time: what is written for it, and what the layers hold then.
use crate::bench::{ADDRESS, RAM, answer_number, bench, exchange, noise_of, telling_of};
use receiver::ANSWER_ROOM;
use reference::Verdict;
use std::test::Fail;

// A set: 66 under the key 20510001, in RAM. Its ACK, and the same with 5, which is out of range.
const SET: [u8; 17] = [
    0xb5, 0x62, 0x06, 0x8a, 0x09, 0x00, 0x00, 0x01, 0x00, 0x00, 0x01, 0x00, 0x51, 0x20, 0x42, 0x4e,
    0xab,
];

const SET_ACK: [u8; 10] = [0xb5, 0x62, 0x05, 0x01, 0x02, 0x00, 0x06, 0x8a, 0x98, 0xc1];

const UNFIT: [u8; 17] = [
    0xb5, 0x62, 0x06, 0x8a, 0x09, 0x00, 0x00, 0x01, 0x00, 0x00, 0x01, 0x00, 0x51, 0x20, 0x05, 0x11,
    0x6e,
];

const SET_NAK: [u8; 10] = [0xb5, 0x62, 0x05, 0x00, 0x02, 0x00, 0x06, 0x8a, 0x97, 0xbc];

// A get of the same key from RAM, and its reply with the ACK behind it.
const GET: [u8; 16] = [
    0xb5, 0x62, 0x06, 0x8b, 0x08, 0x00, 0x00, 0x00, 0x00, 0x00, 0x01, 0x00, 0x51, 0x20, 0x0b, 0x57,
];

const GOT: [u8; 27] = [
    0xb5, 0x62, 0x06, 0x8b, 0x09, 0x00, 0x01, 0x00, 0x00, 0x00, 0x01, 0x00, 0x51, 0x20, 0x42, 0x4f,
    0xb8, 0xb5, 0x62, 0x05, 0x01, 0x02, 0x00, 0x06, 0x8b, 0x99, 0xc2,
];

#[test]
fn a_set_is_acknowledged(rt: HostRuntime) -> Result<(), Fail> {
    let mut receiver = bench();
    assert_eq!(rt; receiver.look(RAM, ADDRESS)?, Some(65));
    assert_eq!(rt; exchange(&rt, &mut receiver, &SET, &SET_ACK)?, 0);
    assert_eq!(rt; receiver.look(RAM, ADDRESS)?, Some(0x42));
    Ok(())
}

#[test]
fn a_value_out_of_range_is_refused(rt: HostRuntime) -> Result<(), Fail> {
    let mut receiver = bench();
    let mut out = [0u8; ANSWER_ROOM];
    assert_eq!(rt; receiver.take(&UNFIT)?, 17);
    let answered = receiver.answer(&mut out)?;
    assert_eq!(rt; answered.noise, 0);
    let telling = telling_of(answered)?;
    assert_eq!(rt; telling.length, 10);
    assert!(rt; &out[0..10] == SET_NAK.as_slice());
    assert!(rt; &out[10..20] == [0; 10].as_slice());
    let Verdict::Nak(refusal) = telling.verdict else {
        return Err(Fail::new("the frame got no NAK"));
    };
    assert_eq!(rt; refusal.number(), 21);
    assert_eq!(rt; refusal.place(), 2);
    assert_eq!(rt; receiver.look(RAM, ADDRESS)?, Some(65));
    Ok(())
}

#[test]
fn a_get_is_answered_from_ram(rt: HostRuntime) -> Result<(), Fail> {
    let mut receiver = bench();
    assert_eq!(rt; exchange(&rt, &mut receiver, &SET, &SET_ACK)?, 0);
    assert_eq!(rt; exchange(&rt, &mut receiver, &GET, &GOT)?, 0);
    Ok(())
}

#[test]
fn a_buffer_needs_790_bytes(rt: HostRuntime) -> Result<(), Fail> {
    let mut receiver = bench();
    assert_eq!(rt; receiver.take(&SET)?, 17);
    assert_eq!(rt; answer_number(&mut receiver, 789), 9);
    assert_eq!(rt; receiver.look(RAM, ADDRESS)?, Some(65));
    assert_eq!(rt; answer_number(&mut receiver, 790), 0);
    assert_eq!(rt; receiver.look(RAM, ADDRESS)?, Some(0x42));
    Ok(())
}

// Noise stands before the frame and behind it, and the frame comes in two pieces.
#[test]
fn a_frame_behind_noise_in_two_pieces(rt: HostRuntime) -> Result<(), Fail> {
    let mut receiver = bench();
    let mut out = [0u8; ANSWER_ROOM];
    receiver.take(&[0x00, 0xb5, 0x00])?;
    receiver.take(&SET[0..9])?;
    assert_eq!(rt; noise_of(receiver.answer(&mut out)?)?, 3);
    receiver.take(&SET[9..17])?;
    receiver.take(&[0xff])?;
    let answered = receiver.answer(&mut out)?;
    assert_eq!(rt; answered.noise, 0);
    assert!(rt; answered.told.is_some());
    assert_eq!(rt; noise_of(receiver.answer(&mut out)?)?, 1);
    Ok(())
}
