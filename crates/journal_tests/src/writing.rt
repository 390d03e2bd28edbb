// Which words stand in a buffer after each write.
use crate::words::*;
use journal::{BLANK, Journal};
use layer::{Layer, Store, StoreFault};
use std::alloc::{AllocError, Global};
use std::test::Fail;

fn holds_words(heap: Global, journal: &Journal, front: &[u32]) -> Result<bool, AllocError> {
    Ok(journal.words() == buffer(heap, front)?.as_slice())
}

// Puts one setting so many times.
fn put_often(journal: &mut Journal, times: u32) -> Result<(), StoreFault> {
    for _ in 0..times {
        journal.put(ADDRESS, 66)?;
    }
    Ok(())
}

#[test]
fn a_setting_of_each_size(rt: HostRuntime) -> Result<(), Fail> {
    let mut journal = Journal::open(buffer(rt.alloc(), &[])?);
    assert_eq!(rt; journal.put(SERIAL, 0x0123_4567_89ab_cdef), Ok(()));
    assert_eq!(rt; journal.put(ENABLED, 1), Ok(()));
    assert_eq!(rt; journal.put(MASK, 0x1234_5678), Ok(()));
    assert_eq!(rt; journal.put(ADDRESS, 0x42), Ok(()));
    assert_eq!(rt; journal.put(RATE, 0x03e8), Ok(()));
    let front = [
        SERIAL_HEAD,
        0x4000_cdef,
        0x4000_89ab,
        0x4000_4567,
        0x4000_0123,
        ENABLED_HEAD,
        0x4000_0001,
        MASK_HEAD,
        0x4000_5678,
        0x4000_1234,
        ADDRESS_HEAD,
        0x4000_0042,
        RATE_HEAD,
        0x4000_03e8,
    ];
    assert!(rt; holds_words(rt.alloc(), &journal, &front)?);
    assert_eq!(rt; journal.value(SERIAL), Some(0x0123_4567_89ab_cdef));
    assert_eq!(rt; journal.value(MASK), Some(0x1234_5678));
    assert_eq!(rt; journal.next_key(0), Some(ENABLED));
    assert_eq!(rt; journal.next_key(ENABLED), Some(ADDRESS));
    assert_eq!(rt; journal.next_key(SERIAL), None);
    Ok(())
}

#[test]
fn a_record_that_fits_exactly(rt: HostRuntime) -> Result<(), Fail> {
    let mut journal = Journal::open(buffer(rt.alloc(), &[])?);
    assert_eq!(rt; put_often(&mut journal, 320), Ok(()));
    assert_eq!(rt; journal.words().get(638).copied(), Some(ADDRESS_HEAD));
    assert_eq!(rt; journal.words().get(639).copied(), Some(0x4000_0042));
    // the next does not fit
    assert_eq!(rt; journal.put(ADDRESS, 67), Ok(()));
    assert!(rt; holds_words(rt.alloc(), &journal, &[ADDRESS_HEAD, 0x4000_0043])?);
    Ok(())
}

#[test]
fn others_are_written_anew_in_ascending_order(rt: HostRuntime) -> Result<(), Fail> {
    let mut journal = Journal::open(buffer(rt.alloc(), &[])?);
    assert_eq!(rt; journal.put(SERIAL, 7), Ok(()));
    assert_eq!(rt; put_often(&mut journal, 317), Ok(()));
    // one word is left
    assert_eq!(rt; journal.words().get(639).copied(), Some(BLANK));
    assert_eq!(rt; journal.put(ENABLED, 1), Ok(()));
    let front = [
        ADDRESS_HEAD,
        0x4000_0042,
        SERIAL_HEAD,
        0x4000_0007,
        0x4000_0000,
        0x4000_0000,
        0x4000_0000,
        ENABLED_HEAD,
        0x4000_0001,
    ];
    assert!(rt; holds_words(rt.alloc(), &journal, &front)?);
    assert_eq!(rt; journal.value(SERIAL), Some(7));
    Ok(())
}

#[test]
fn a_removal(rt: HostRuntime) -> Result<(), Fail> {
    let mut journal = Journal::open(buffer(rt.alloc(), &[ADDRESS_HEAD, 0x4000_0042])?);
    let front = [ADDRESS_HEAD, 0x4000_0042, ADDRESS_REMOVAL];
    assert_eq!(rt; journal.remove(ADDRESS), Ok(()));
    assert!(rt; holds_words(rt.alloc(), &journal, &front)?);
    assert_eq!(rt; journal.value(ADDRESS), None);
    // what is not held is not removed
    assert_eq!(rt; journal.remove(ADDRESS), Ok(()));
    assert_eq!(rt; journal.remove(ENABLED), Ok(()));
    assert!(rt; holds_words(rt.alloc(), &journal, &front)?);
    assert_eq!(rt; journal.remove(0), Err(StoreFault::IllFormedKey));
    Ok(())
}

#[test]
fn a_removal_where_little_is_blank(rt: HostRuntime) -> Result<(), Fail> {
    let mut journal = Journal::open(buffer(rt.alloc(), &[])?);
    assert_eq!(rt; journal.put(SERIAL, 7), Ok(()));
    assert_eq!(rt; put_often(&mut journal, 317), Ok(()));
    assert_eq!(rt; journal.remove(ADDRESS), Ok(()));
    assert_eq!(rt; journal.words().get(639).copied(), Some(ADDRESS_REMOVAL));
    assert_eq!(rt; journal.remove(SERIAL), Ok(()));
    assert!(rt; holds_words(rt.alloc(), &journal, &[])?);
    // another is written anew
    assert_eq!(rt; journal.put(ENABLED, 0), Ok(()));
    assert_eq!(rt; put_often(&mut journal, 319), Ok(()));
    assert_eq!(rt; journal.remove(ADDRESS), Ok(()));
    assert!(rt; holds_words(rt.alloc(), &journal, &[ENABLED_HEAD, 0x4000_0000])?);
    Ok(())
}

#[test]
fn clearing(rt: HostRuntime) -> Result<(), Fail> {
    let mut journal = Journal::open(buffer(rt.alloc(), &[ADDRESS_HEAD, 0x4000_0042])?);
    assert_eq!(rt; journal.clear(), Ok(()));
    assert!(rt; holds_words(rt.alloc(), &journal, &[])?);
    assert_eq!(rt; journal.next_key(0), None);
    assert_eq!(rt; journal.put(ADDRESS, 67), Ok(()));
    assert!(rt; holds_words(rt.alloc(), &journal, &[ADDRESS_HEAD, 0x4000_0043])?);
    Ok(())
}

#[test]
fn refused_puts_write_nothing(rt: HostRuntime) -> Result<(), Fail> {
    let mut journal = Journal::open(buffer(rt.alloc(), &[])?);
    assert_eq!(rt; journal.put(0x2051_0fff, 0), Err(StoreFault::IllFormedKey));
    assert_eq!(rt; journal.put(ADDRESS, 256), Err(StoreFault::Unfit));
    assert!(rt; holds_words(rt.alloc(), &journal, &[])?);
    for i in 0..128u32 {
        assert_eq!(rt; journal.put(0x2001_0001 + i, 7), Ok(()));
    }
    assert_eq!(rt; journal.put(ADDRESS, 66), Err(StoreFault::Full));
    assert_eq!(rt; journal.words().get(256).copied(), Some(BLANK));
    assert_eq!(rt; journal.put(0x2001_0001, 8), Ok(()));
    assert_eq!(rt; journal.words().get(256).copied(), Some(0x0020_1001));
    Ok(())
}

#[test]
fn a_power_cycle(rt: HostRuntime) -> Result<(), Fail> {
    let mut journal = Journal::open(buffer(rt.alloc(), &[])?);
    assert_eq!(rt; journal.put(ADDRESS, 66), Ok(()));
    assert_eq!(rt; journal.put(ENABLED, 1), Ok(()));
    assert_eq!(rt; journal.remove(ADDRESS), Ok(()));
    let mut journal = journal.power_cycled();
    assert_eq!(rt; journal.value(ADDRESS), None);
    assert_eq!(rt; journal.value(ENABLED), Some(1));
    assert_eq!(rt; journal.put(ADDRESS, 67), Ok(()));
    let front = [
        ADDRESS_HEAD,
        0x4000_0042,
        ENABLED_HEAD,
        0x4000_0001,
        ADDRESS_REMOVAL,
        ADDRESS_HEAD,
        0x4000_0043,
    ];
    assert!(rt; holds_words(rt.alloc(), &journal, &front)?);
    Ok(())
}
