// Each store by the same questions, and layers over one another.
use any_store::AnyStore;
use catalogue::bench_catalogue;
use layer::{Absent, Layer, Saver, Stack, Store, StoreFault, put_then_ask};
use std::process::Abort;
use store::{Defaults, SlotTable};

const ADDRESS: u32 = 0x2051_0001;

const ENABLED: u32 = 0x1051_0002;

// What a usable store shows: values are kept, replaced, listed in order, taken away and refused.
fn is_a_store<S: Store>(rt: &impl Abort, store: &mut S) {
    assert_eq!(rt; put_then_ask(store, ADDRESS, 66), Ok(Some(66)));
    assert_eq!(rt; put_then_ask(store, ADDRESS, 67), Ok(Some(67)));
    assert_eq!(rt; put_then_ask(store, ENABLED, 1), Ok(Some(1)));
    assert_eq!(rt; put_then_ask(store, ADDRESS, 256), Err(StoreFault::Unfit));
    assert_eq!(rt;
        put_then_ask(store, 0x2051_ffff, 1),
        Err(StoreFault::IllFormedKey)
    );
    assert_eq!(rt; store.next_key(0), Some(ENABLED));
    assert_eq!(rt; store.next_key(ENABLED), Some(ADDRESS));
    assert_eq!(rt; store.next_key(ADDRESS), None);
    assert_eq!(rt; store.remove(ENABLED), Ok(()));
    assert_eq!(rt; store.value(ENABLED), None);
    assert_eq!(rt; store.value(ADDRESS), Some(67));
    assert_eq!(rt; store.clear(), Ok(()));
    assert_eq!(rt; store.next_key(0), None);
    assert!(rt; store.is_usable());
}

// What a store that is not usable shows.
fn is_no_store<S: Store>(rt: &impl Abort, store: &mut S) {
    assert_eq!(rt; put_then_ask(store, 0, 1), Err(StoreFault::Unusable));
    assert_eq!(rt; store.remove(ADDRESS), Err(StoreFault::Unusable));
    assert_eq!(rt; store.clear(), Err(StoreFault::Unusable));
    assert_eq!(rt; store.next_key(0), None);
    assert!(rt; !store.is_usable());
}

#[test]
fn slot_tables(rt: HostRuntime) {
    is_a_store(&rt, &mut SlotTable::new());
    is_a_store(
        &rt,
        &mut Saver {
            store: SlotTable::new(),
        },
    );
    is_a_store(&rt, &mut AnyStore::Slots(SlotTable::new()));
    is_a_store(
        &rt,
        &mut AnyStore::SavedSlots(Saver {
            store: SlotTable::new(),
        }),
    );
}

#[test]
fn absent_places(rt: HostRuntime) {
    is_no_store(&rt, &mut Absent);
    is_no_store(&rt, &mut Saver { store: Absent });
    is_no_store(&rt, &mut AnyStore::Nowhere(Absent));
    is_no_store(&rt, &mut AnyStore::SavedNowhere(Saver { store: Absent }));
}

#[test]
fn a_table_holds_128_settings(rt: HostRuntime) {
    let mut table = SlotTable::new();
    for i in 0..128u32 {
        assert_eq!(rt; table.put(0x2001_0001 + i, 7), Ok(()));
    }
    assert_eq!(rt; table.put(0x2002_0001, 7), Err(StoreFault::Full));
    assert_eq!(rt; table.put(0x2001_0080, 8), Ok(()));
    assert_eq!(rt; table.value(0x2001_0080), Some(8));
}

#[test]
fn layers_over_one_another(rt: HostRuntime) {
    let mut pile = Stack {
        upper: Stack {
            upper: SlotTable::new(),
            lower: Absent,
        },
        lower: Defaults::new(&bench_catalogue()),
    };
    assert_eq!(rt; pile.value(ADDRESS), Some(65));
    assert_eq!(rt; pile.upper.upper.put(ADDRESS, 66), Ok(()));
    assert_eq!(rt; pile.value(ADDRESS), Some(66));
    assert_eq!(rt; pile.next_key(0), Some(ENABLED));
    assert_eq!(rt; pile.next_key(ADDRESS), Some(0x2091_033b));
    // a refused catalogue has no defaults
    let mut entries = bench_catalogue();
    entries[0].key = 0;
    assert_eq!(rt; Defaults::new(&entries).next_key(0), None);
}
