// What is refused, by its number, and that the buffer stays as it was.
use host::{Begun, HostFault, SetTransaction, write_delete, write_get, write_set};
use layer::Setting;
use std::process::Abort;
use std::test::Fail;

const ADDRESS: Setting = Setting {
    key: 0x2051_0001,
    value: 66,
};

// 256 is no value of one byte.
const UNFIT: Setting = Setting {
    key: 0x2051_0001,
    value: 256,
};

// Size 6 is none.
const ILL_FORMED: Setting = Setting {
    key: 0x6051_0001,
    value: 0,
};

// The refusal's number, 0 where the call is granted.
fn number(answer: Result<usize, HostFault>) -> u8 {
    answer.err().map_or(0, |fault| fault.number())
}

// Each set is refused by its number and writes nothing.
fn refuses(rt: &impl Abort, layers: u8, settings: &[Setting], number_wanted: u8) {
    let mut out = [0xee; 17];
    assert_eq!(rt;
        number(write_set(&mut out, layers, settings)),
        number_wanted
    );
    assert!(rt; out.as_slice() == [0xee; 17].as_slice());
}

#[test]
fn sets_are_refused_in_order(rt: HostRuntime) {
    refuses(&rt, 0, &[ILL_FORMED; 65], 31);
    refuses(&rt, 8, &[ADDRESS], 31);
    refuses(&rt, 1, &[ILL_FORMED; 65], 33);
    refuses(&rt, 1, &[UNFIT, ILL_FORMED], 35);
    refuses(&rt, 1, &[ILL_FORMED, UNFIT], 34);
    refuses(&rt, 1, &[ADDRESS, ADDRESS], 36);
    // a selector is no key of a set
    refuses(
        &rt,
        1,
        &[Setting {
            key: 0x0fff_0000,
            value: 0,
        }],
        34,
    );
}

#[test]
fn deletes_and_gets_are_refused(rt: HostRuntime) {
    let mut out = [0; 16];
    assert_eq!(rt; number(write_delete(&mut out, 1, &[0x2051_0001])), 31);
    assert_eq!(rt; number(write_delete(&mut out, 3, &[0x2051_0001])), 31);
    assert_eq!(rt; number(write_delete(&mut out, 2, &[0x2051_0001; 65])), 33);
    assert_eq!(rt; number(write_delete(&mut out, 2, &[0x2051_0000])), 34);
    assert_eq!(rt; number(write_get(&mut out, 3, 0, &[0x2051_0001])), 31);
    assert_eq!(rt; number(write_get(&mut out, 7, 0, &[0x0051_fffe])), 34);
    assert_eq!(rt; number(write_get(&mut out, 7, 0, &[1, 2])), 34);
    assert_eq!(rt;
        number(write_get(&mut out[0..15], 7, 0, &[0x2051_0001])),
        36
    );
    assert!(rt; out.as_slice() == [0; 16].as_slice());
}

#[test]
fn a_refused_beginning_begins_nothing(rt: HostRuntime) -> Result<(), Fail> {
    let mut out = [0; 16];
    match SetTransaction::begin(&mut out, 1, &[ADDRESS]) {
        Err(fault) => {
            assert_eq!(rt; fault.number(), 36);
            Ok(())
        }
        Ok(
            Begun {
                length: _,
                transaction,
            },
        ) => {
            let _end = transaction.abandon();
            Err(Fail::new("a frame of 17 bytes was written into 16"))
        }
    }
}

#[test]
fn faults_are_told_in_words(rt: HostRuntime) -> Result<(), Fail> {
    let heap = rt.alloc();
    let short = HostFault::BufferTooShort.to_string(heap)?;
    assert_eq!(rt; short.as_str(), "the buffer is shorter than the frame");
    let many = HostFault::TooManyEntries.to_string(heap)?;
    assert_eq!(rt; many.as_str(), "a request has at most 64 entries");
    Ok(())
}
