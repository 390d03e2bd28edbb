// Transactions: begun, added to, and applied or abandoned.
use host::{Begun, DeleteTransaction, HostFault, SetTransaction};
use layer::Setting;
use std::test::Fail;

// Item 1 on in RAM, then item 0, which needs it.
const BEGIN: [u8; 17] = [
    0xb5, 0x62, 0x06, 0x8a, 0x09, 0x00, 0x01, 0x01, 0x01, 0x00, 0x03, 0x00, 0x51, 0x10, 0x01, 0x01,
    0x64,
];

const ADD: [u8; 17] = [
    0xb5, 0x62, 0x06, 0x8a, 0x09, 0x00, 0x01, 0x01, 0x02, 0x00, 0x02, 0x00, 0x51, 0x10, 0x01, 0x01,
    0x66,
];

const APPLY: [u8; 12] = [
    0xb5, 0x62, 0x06, 0x8a, 0x04, 0x00, 0x01, 0x01, 0x03, 0x00, 0x99, 0x1b,
];

const ABANDON: [u8; 12] = [
    0xb5, 0x62, 0x06, 0x8a, 0x04, 0x00, 0x01, 0x01, 0x00, 0x00, 0x96, 0x15,
];

// The key 20510001 out of BBR, then all others.
const BEGIN_DELETE: [u8; 16] = [
    0xb5, 0x62, 0x06, 0x8c, 0x08, 0x00, 0x01, 0x02, 0x01, 0x00, 0x01, 0x00, 0x51, 0x20, 0x10, 0x7e,
];

const ADD_DELETE: [u8; 16] = [
    0xb5, 0x62, 0x06, 0x8c, 0x08, 0x00, 0x01, 0x02, 0x02, 0x00, 0x00, 0x00, 0xff, 0x0f, 0xad, 0xcb,
];

const APPLY_DELETE: [u8; 12] = [
    0xb5, 0x62, 0x06, 0x8c, 0x04, 0x00, 0x01, 0x02, 0x03, 0x00, 0x9c, 0x2c,
];

const ABANDON_DELETE: [u8; 12] = [
    0xb5, 0x62, 0x06, 0x8c, 0x04, 0x00, 0x01, 0x02, 0x00, 0x00, 0x99, 0x26,
];

const FIRST: Setting = Setting {
    key: 0x1051_0003,
    value: 1,
};

const SECOND: Setting = Setting {
    key: 0x1051_0002,
    value: 1,
};

#[test]
fn a_set_transaction_is_applied(rt: HostRuntime) -> Result<(), Fail> {
    let mut out = [0; 17];
    let Begun {
        length,
        mut transaction,
    } = SetTransaction::begin(&mut out, 1, &[FIRST])?;
    assert_eq!(rt; length, 17);
    assert!(rt; out.as_slice() == BEGIN.as_slice());
    assert_eq!(rt; transaction.add(&mut out, &[SECOND]), Ok(17));
    assert!(rt; out.as_slice() == ADD.as_slice());
    assert!(rt; transaction.apply().as_slice() == APPLY.as_slice());
    Ok(())
}

#[test]
fn a_set_transaction_is_abandoned(rt: HostRuntime) -> Result<(), Fail> {
    let mut out = [0; 17];
    let Begun {
        length: _,
        mut transaction,
    } = SetTransaction::begin(&mut out, 1, &[FIRST])?;
    assert_eq!(rt;
        transaction.add(&mut out, &[]),
        Err(HostFault::NothingToAdd)
    );
    assert!(rt; out.as_slice() == BEGIN.as_slice());
    assert!(rt; transaction.abandon().as_slice() == ABANDON.as_slice());
    Ok(())
}

#[test]
fn a_delete_transaction_is_applied(rt: HostRuntime) -> Result<(), Fail> {
    let mut out = [0; 16];
    let Begun {
        length,
        mut transaction,
    } = DeleteTransaction::begin(&mut out, 2, &[0x2051_0001])?;
    assert_eq!(rt; length, 16);
    assert!(rt; out.as_slice() == BEGIN_DELETE.as_slice());
    assert_eq!(rt; transaction.add(&mut out, &[0x0fff_0000]), Ok(16));
    assert!(rt; out.as_slice() == ADD_DELETE.as_slice());
    assert!(rt; transaction.apply().as_slice() == APPLY_DELETE.as_slice());
    Ok(())
}

#[test]
fn a_delete_transaction_may_begin_empty(rt: HostRuntime) -> Result<(), Fail> {
    let mut out = [0; 12];
    let Begun {
        length,
        transaction,
    } = DeleteTransaction::begin(&mut out, 2, &[])?;
    assert_eq!(rt; length, 12);
    assert!(rt; transaction.abandon().as_slice() == ABANDON_DELETE.as_slice());
    Ok(())
}
