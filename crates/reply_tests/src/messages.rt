// Messages of a receiver: verdicts, values, other frames, and what is not read.
use layer::Setting;
use reply::{Message, ReadFault, Reading, read};
use std::test::Fail;

// The verdicts on a set request.
const ACK: [u8; 10] = [0xb5, 0x62, 0x05, 0x01, 0x02, 0x00, 0x06, 0x8a, 0x98, 0xc1];

const NAK: [u8; 10] = [0xb5, 0x62, 0x05, 0x00, 0x02, 0x00, 0x06, 0x8a, 0x97, 0xbc];

// Values of RAM from position 0 on: 66 under 20510001.
const VALUES: [u8; 17] = [
    0xb5, 0x62, 0x06, 0x8b, 0x09, 0x00, 0x01, 0x00, 0x00, 0x00, 0x01, 0x00, 0x51, 0x20, 0x42, 0x4f,
    0xb8,
];

// The same, cut before its value, and with the key 20000001, whose group is 0.
const CUT: [u8; 16] = [
    0xb5, 0x62, 0x06, 0x8b, 0x08, 0x00, 0x01, 0x00, 0x00, 0x00, 0x01, 0x00, 0x51, 0x20, 0x0c, 0x5f,
];

const ILL_FORMED: [u8; 17] = [
    0xb5, 0x62, 0x06, 0x8b, 0x09, 0x00, 0x01, 0x00, 0x00, 0x00, 0x01, 0x00, 0x00, 0x20, 0x42, 0xfe,
    0xc5,
];

fn is_ack(message: Message<'_>) -> bool {
    matches!(
        message,
        Message::Ack {
            class: 0x06,
            id: 0x8a
        }
    )
}

#[test]
fn verdicts_are_read(rt: HostRuntime) -> Result<(), ReadFault> {
    let granted = read(&ACK)?;
    assert!(rt; is_ack(granted.message));
    assert_eq!(rt; granted.place, 0);
    assert!(rt; granted.rest.is_empty());
    let refused = read(&NAK)?;
    assert!(rt;
        matches!(
            refused.message,
            Message::Nak {
                class: 0x06,
                id: 0x8a
            }
        )
    );
    Ok(())
}

#[test]
fn values_are_read_with_their_pairs(rt: HostRuntime) -> Result<(), ReadFault> {
    let Reading {
        place,
        message,
        rest,
    } = read(&VALUES)?;
    assert_eq!(rt; place, 0);
    assert!(rt; rest.is_empty());
    let Message::Values {
        layer,
        position,
        mut pairs,
    } = message
    else {
        return Err(ReadFault::NothingWhole);
    };
    assert_eq!(rt; layer, 0);
    assert_eq!(rt; position, 0);
    let held = Setting {
        key: 0x20510001,
        value: 66,
    };
    assert_eq!(rt; pairs.next(), Some(held));
    assert_eq!(rt; pairs.next(), None);
    Ok(())
}

// A reply and the ACK behind it, with a byte of noise before.
fn noisy() -> [u8; 28] {
    let mut bytes = [0; 28];
    bytes[1..18].copy_from_slice(&VALUES);
    bytes[18..28].copy_from_slice(&ACK);
    bytes
}

#[test]
fn reading_goes_on_behind_a_message(rt: HostRuntime) -> Result<(), ReadFault> {
    let bytes = noisy();
    let reply = read(&bytes)?;
    assert_eq!(rt; reply.place, 1);
    let next = read(reply.rest)?;
    assert!(rt; is_ack(next.message));
    assert_eq!(rt; next.place, 0);
    Ok(())
}

#[test]
fn bad_pairs_are_placed_in_the_input(rt: HostRuntime) {
    assert!(rt; matches!(read(&CUT), Err(ReadFault::BadPair(10))));
    assert!(rt; matches!(read(&ILL_FORMED), Err(ReadFault::BadPair(10))));
    assert_eq!(rt; ReadFault::BadPair(10).number(), 38);
}

#[test]
fn nothing_whole_is_heard_in_a_cut_frame(rt: HostRuntime) {
    assert!(rt; matches!(read(&ACK[0..9]), Err(ReadFault::NothingWhole)));
    assert!(rt; matches!(read(&[]), Err(ReadFault::NothingWhole)));
    assert_eq!(rt; ReadFault::NothingWhole.number(), 37);
    assert_eq!(rt; ReadFault::NothingWhole.place(), 0);
}

// A set request, and a verdict of three bytes.
const SET: [u8; 17] = [
    0xb5, 0x62, 0x06, 0x8a, 0x09, 0x00, 0x00, 0x01, 0x00, 0x00, 0x01, 0x00, 0x51, 0x20, 0x42, 0x4e,
    0xab,
];

const LONG: [u8; 11] = [
    0xb5, 0x62, 0x05, 0x01, 0x03, 0x00, 0x06, 0x8a, 0x00, 0x99, 0x5e,
];

#[test]
fn other_frames_are_read_as_such(rt: HostRuntime) {
    assert!(rt;
        matches!(
            read(&SET),
            Ok(Reading {
                message: Message::Other(_),
                ..
            })
        )
    );
    assert!(rt;
        matches!(
            read(&LONG),
            Ok(Reading {
                message: Message::Other(_),
                ..
            })
        )
    );
}
