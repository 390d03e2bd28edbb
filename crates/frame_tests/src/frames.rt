// One frame: what stands at its first byte, whole, cut or damaged, and how it is written.
use frame::{
    CheckBytes, Frame, MAX_FRAME, MAX_PAYLOAD, Unheard, WriteFault, check_bytes, find, start_of,
    write_frame,
};
use std::test::Fail;

// A set request: the value 42 under the key 20510001, in RAM.
const SET: [u8; 17] = [
    0xb5, 0x62, 0x06, 0x8a, 0x09, 0x00, 0x00, 0x01, 0x00, 0x00, 0x01, 0x00, 0x51, 0x20, 0x42, 0x4e,
    0xab,
];

const SET_PAYLOAD: [u8; 9] = [0x00, 0x01, 0x00, 0x00, 0x01, 0x00, 0x51, 0x20, 0x42];

// The frame that these bytes are.
fn set_request() -> Frame<'static> {
    Frame {
        class: 0x06,
        id: 0x8a,
        payload: &SET_PAYLOAD,
    }
}

#[test]
fn check_bytes_of_a_set_request(rt: HostRuntime) {
    assert_eq!(rt; check_bytes(&SET[2..15]), CheckBytes { a: 0x4e, b: 0xab });
    assert_eq!(rt; check_bytes(&[]), CheckBytes { a: 0, b: 0 });
}

#[test]
fn a_frame_is_undecided_until_its_last_byte(rt: HostRuntime) {
    for cut in 0..17 {
        assert_eq!(rt; start_of(&SET[0..cut]), Err(Unheard::Undecided));
    }
    assert_eq!(rt; start_of(&SET), Ok(set_request()));
}

#[test]
fn a_wrong_byte_decides_as_soon_as_it_is_there(rt: HostRuntime) {
    assert_eq!(rt; start_of(&[0xb4]), Err(Unheard::Noise));
    assert_eq!(rt; start_of(&[0xb5, 0x63]), Err(Unheard::Noise));
    // 773 payload bytes; 772 could still come
    assert_eq!(rt;
        start_of(&[0xb5, 0x62, 0x06, 0x8a, 0x05, 0x03]),
        Err(Unheard::Noise)
    );
    assert_eq!(rt;
        start_of(&[0xb5, 0x62, 0x06, 0x8a, 0x04, 0x03]),
        Err(Unheard::Undecided)
    );
    // the first check byte is wrong, and the second has not come
    let mut bytes = SET;
    bytes[15] = 0x4f;
    assert_eq!(rt; start_of(&bytes[0..16]), Err(Unheard::Noise));
    // the first is right, the second is wrong
    bytes = SET;
    bytes[16] = 0xac;
    assert_eq!(rt; start_of(&bytes), Err(Unheard::Noise));
}

#[test]
fn a_good_frame_inside_a_damaged_one_is_heard(rt: HostRuntime) {
    // 17 payload bytes that are the set request, and wrong check bytes
    let mut bytes = [0u8; 25];
    bytes[0] = 0xb5;
    bytes[1] = 0x62;
    bytes[4] = 17;
    bytes[6..23].copy_from_slice(&SET);
    let found = find(&bytes);
    assert_eq!(rt; found.noise, 6);
    assert_eq!(rt; found.frame, Some(set_request()));
    assert_eq!(rt; found.rest.len(), 2);
}

#[test]
fn writes_the_set_request(rt: HostRuntime) -> Result<(), Fail> {
    let mut out = [0xeeu8; 20];
    let size = write_frame(&mut out, &set_request())?;
    assert_eq!(rt; size, 17);
    assert!(rt; &out[0..17] == SET.as_slice());
    assert!(rt; &out[17..20] == [0xee, 0xee, 0xee].as_slice());
    Ok(())
}

#[test]
fn a_refused_frame_leaves_the_buffer(rt: HostRuntime) {
    let mut out = [0xeeu8; 16];
    assert_eq!(rt;
        write_frame(&mut out, &set_request()),
        Err(WriteFault::BufferTooShort)
    );
    assert!(rt; &out == &[0xee; 16]);
    let mut long = [0xeeu8; 800];
    let payload = [0u8; 773];
    let too_long = Frame {
        payload: &payload,
        ..set_request()
    };
    assert_eq!(rt;
        write_frame(&mut long, &too_long),
        Err(WriteFault::PayloadTooLong)
    );
    assert!(rt; &long[0..8] == [0xee; 8].as_slice());
    let longest = Frame {
        payload: &payload[0..MAX_PAYLOAD],
        ..set_request()
    };
    assert_eq!(rt; write_frame(&mut long, &longest), Ok(MAX_FRAME));
}
