// Requests that stand alone.
use host::{write_delete, write_get, write_set};
use layer::Setting;
use std::test::Fail;

// 66 under the key 20510001, in RAM.
const SET: [u8; 17] = [
    0xb5, 0x62, 0x06, 0x8a, 0x09, 0x00, 0x00, 0x01, 0x00, 0x00, 0x01, 0x00, 0x51, 0x20, 0x42, 0x4e,
    0xab,
];

// What RAM holds under that key.
const GET: [u8; 16] = [
    0xb5, 0x62, 0x06, 0x8b, 0x08, 0x00, 0x00, 0x00, 0x00, 0x00, 0x01, 0x00, 0x51, 0x20, 0x0b, 0x57,
];

// The defaults of all items, but for the first 320.
const GET_ALL: [u8; 16] = [
    0xb5, 0x62, 0x06, 0x8b, 0x08, 0x00, 0x00, 0x07, 0x40, 0x01, 0x00, 0x00, 0xff, 0x0f, 0xef, 0x54,
];

// That key and its group, out of BBR and Flash.
const DELETE: [u8; 20] = [
    0xb5, 0x62, 0x06, 0x8c, 0x0c, 0x00, 0x00, 0x06, 0x00, 0x00, 0x01, 0x00, 0x51, 0x20, 0xff, 0xff,
    0x51, 0x00, 0x65, 0xa7,
];

const ADDRESS: Setting = Setting {
    key: 0x2051_0001,
    value: 66,
};

#[test]
fn a_set_is_written_in_front(rt: HostRuntime) -> Result<(), Fail> {
    let mut out = [0xee; 20];
    assert_eq!(rt; write_set(&mut out, 1, &[ADDRESS])?, 17);
    assert!(rt; &out[0..17] == SET.as_slice());
    assert!(rt; &out[17..20] == [0xee; 3].as_slice());
    Ok(())
}

#[test]
fn a_buffer_may_fit_exactly(rt: HostRuntime) -> Result<(), Fail> {
    let mut out = [0; 17];
    assert_eq!(rt; write_set(&mut out, 1, &[ADDRESS])?, 17);
    assert!(rt; out.as_slice() == SET.as_slice());
    Ok(())
}

#[test]
fn gets_name_a_layer_and_a_position(rt: HostRuntime) -> Result<(), Fail> {
    let mut out = [0; 16];
    assert_eq!(rt; write_get(&mut out, 0, 0, &[0x2051_0001])?, 16);
    assert!(rt; out.as_slice() == GET.as_slice());
    assert_eq!(rt; write_get(&mut out, 7, 320, &[0x0fff_0000])?, 16);
    assert!(rt; out.as_slice() == GET_ALL.as_slice());
    Ok(())
}

#[test]
fn a_delete_takes_keys_and_selectors(rt: HostRuntime) -> Result<(), Fail> {
    let mut out = [0; 20];
    assert_eq!(rt; write_delete(&mut out, 6, &[0x2051_0001, 0x0051_ffff])?, 20);
    assert!(rt; out.as_slice() == DELETE.as_slice());
    Ok(())
}

#[test]
fn sixty_four_entries_are_written(rt: HostRuntime) -> Result<(), Fail> {
    let mut out = [0; 780];
    let widest = Setting {
        key: 0x5001_0001,
        value: u64::MAX,
    };
    assert_eq!(rt; write_set(&mut out, 4, &[widest; 64])?, 780);
    assert_eq!(rt; write_get(&mut out, 0, 0, &[0x2051_0001; 64])?, 268);
    Ok(())
}
