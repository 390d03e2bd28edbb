// What inspection finds of worked buffers, and which it refuses.
use crate::words::*;
use journal::{BLANK, Journal, JournalFault, inspect};
use layer::{Layer, Store, StoreFault};
use std::alloc::{AllocError, Global};
use std::test::Fail;

fn fault_of(heap: Global, front: &[u32]) -> Result<Option<JournalFault>, AllocError> {
    Ok(Journal::open(buffer(heap, front)?).fault())
}

#[test]
fn later_records_count(rt: HostRuntime) -> Result<(), Fail> {
    let front = [
        ADDRESS_REMOVAL,
        ADDRESS_HEAD,
        0x4000_0042,
        MASK_HEAD,
        0x4000_5678,
        0x4000_1234,
        ADDRESS_HEAD,
        0x4000_0043,
    ];
    let journal = Journal::open(buffer(rt.alloc(), &front)?);
    assert_eq!(rt; journal.fault(), None);
    assert!(rt; journal.is_usable());
    assert_eq!(rt; journal.value(ADDRESS), Some(67));
    assert_eq!(rt; journal.value(MASK), Some(0x1234_5678));
    assert_eq!(rt; journal.next_key(ADDRESS), Some(MASK));
    assert_eq!(rt; journal.next_key(MASK), None);
    Ok(())
}

#[test]
fn how_many_words(rt: HostRuntime) -> Result<(), Fail> {
    for (count, fault) in [
        (0, Some(JournalFault::WordCount)),
        (639, Some(JournalFault::WordCount)),
        (640, None),
        (16_384, None),
        (16_385, Some(JournalFault::WordCount)),
    ] {
        let mut words = Vec::new(rt.alloc());
        words.resize(count, BLANK)?;
        assert_eq!(rt; Journal::open(words).fault(), fault, "{count} words");
    }
    Ok(())
}

#[test]
fn words_out_of_place(rt: HostRuntime) -> Result<(), Fail> {
    let part = 0x4000_0042;
    for (front, word) in [
        ([part, BLANK], 0),
        ([ADDRESS_HEAD, ADDRESS_HEAD], 1),
        ([ADDRESS_HEAD, ADDRESS_REMOVAL], 1),
        ([ADDRESS_HEAD, BLANK], 1),
        ([ADDRESS_REMOVAL, part], 1),
        ([BLANK, ADDRESS_HEAD], 1),
        ([BLANK, part], 1),
        ([BLANK, ADDRESS_REMOVAL], 1),
        // its kind is looked at before its bits
        ([ADDRESS_HEAD, 0xc000_0000], 1),
        ([BLANK, 0x0080_0000], 1),
    ] {
        assert_eq!(rt;
            fault_of(rt.alloc(), &front)?,
            Some(JournalFault::OutOfPlace(word)),
            "{front:?}"
        );
    }
    Ok(())
}

#[test]
fn a_setting_that_the_end_cuts(rt: HostRuntime) -> Result<(), Fail> {
    let mut words = Vec::new(rt.alloc());
    words.resize(639, ADDRESS_REMOVAL)?;
    words.push(ADDRESS_HEAD)?;
    assert_eq!(rt;
        Journal::open(words).fault(),
        Some(JournalFault::OutOfPlace(640))
    );
    Ok(())
}

#[test]
fn words_that_are_malformed(rt: HostRuntime) -> Result<(), Fail> {
    for (front, word) in [
        // spare bits
        ([0x00a5_1001, 0x4000_0042], 0),
        ([0x2025_1001, 0x4000_0042], 0),
        ([0xa025_1001, BLANK], 0),
        ([ADDRESS_HEAD, 0x4001_0042], 1),
        ([ADDRESS_HEAD, 0x6000_0042], 1),
        // sizes 0 and 6, groups 00 and ff, items 000 and fff
        ([0x0005_1001, 0x4000_0042], 0),
        ([0x0065_1001, 0x4000_0042], 0),
        ([0x0020_0001, 0x4000_0042], 0),
        ([0x002f_f001, 0x4000_0042], 0),
        ([0x8025_1000, BLANK], 0),
        ([0x8025_1fff, BLANK], 0),
        // blanks are all ones
        ([0xffff_fffe, BLANK], 0),
        ([BLANK, 0xc000_0000], 1),
    ] {
        assert_eq!(rt;
            fault_of(rt.alloc(), &front)?,
            Some(JournalFault::Malformed(word)),
            "{front:?}"
        );
    }
    Ok(())
}

#[test]
fn values_that_do_not_fit(rt: HostRuntime) -> Result<(), Fail> {
    let front = [ENABLED_HEAD, 0x4000_0001, ADDRESS_HEAD, 0x4000_0100];
    assert_eq!(rt; fault_of(rt.alloc(), &front)?, Some(JournalFault::Unfit(2)));
    let front = [ENABLED_HEAD, 0x4000_0002];
    assert_eq!(rt; fault_of(rt.alloc(), &front)?, Some(JournalFault::Unfit(0)));
    Ok(())
}

#[test]
fn a_129th_setting(rt: HostRuntime) -> Result<(), Fail> {
    let mut words = Vec::new(rt.alloc());
    for i in 0..128u32 {
        words.push(0x0020_1001 + i)?;
        words.push(0x4000_0007)?;
    }
    assert_eq!(rt; fault_of(rt.alloc(), words.as_slice())?, None);
    words.push(ADDRESS_HEAD)?;
    words.push(0x4000_0042)?;
    assert_eq!(rt;
        fault_of(rt.alloc(), words.as_slice())?,
        Some(JournalFault::TooMany(256))
    );
    Ok(())
}

#[test]
fn numbers_and_words(rt: HostRuntime) -> Result<(), Fail> {
    for (fault, number, word) in [
        (JournalFault::WordCount, 22, 0),
        (JournalFault::OutOfPlace(7), 23, 7),
        (JournalFault::Malformed(8), 24, 8),
        (JournalFault::Unfit(9), 25, 9),
        (JournalFault::TooMany(10), 26, 10),
    ] {
        assert_eq!(rt; fault.number(), number);
        assert_eq!(rt; fault.word(), word);
    }
    Ok(())
}

#[test]
fn a_journal_that_is_not_usable(rt: HostRuntime) -> Result<(), Fail> {
    let words = buffer(rt.alloc(), &[ADDRESS_HEAD, 0x4000_0042, 0x4000_0042])?;
    assert!(rt; inspect(words.as_slice()).is_err());
    let mut journal = Journal::open(words);
    assert_eq!(rt; journal.fault(), Some(JournalFault::OutOfPlace(2)));
    assert!(rt; !journal.is_usable());
    assert_eq!(rt; journal.value(ADDRESS), None);
    assert_eq!(rt; journal.next_key(0), None);
    assert_eq!(rt; journal.put(0, 1), Err(StoreFault::Unusable));
    assert_eq!(rt; journal.remove(ADDRESS), Err(StoreFault::Unusable));
    assert_eq!(rt; journal.clear(), Err(StoreFault::Unusable));
    let journal = journal.power_cycled();
    assert_eq!(rt; journal.fault(), Some(JournalFault::OutOfPlace(2)));
    let kept = buffer(rt.alloc(), &[ADDRESS_HEAD, 0x4000_0042, 0x4000_0042])?;
    assert_eq!(rt; journal.into_words(), kept);
    Ok(())
}
