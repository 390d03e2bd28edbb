// Catalogues: the bench catalogue, what is wrong with others, and which items are named.
use catalogue::{Entry, Kind, bench_catalogue, check_catalogue, find_item, next_named};

// The check, with the number and entry of its refusal.
// kept: by number, as the docs name refusals, so that the numbers are tested too
fn checked(entries: &[Entry]) -> Result<(), (u8, usize)> {
    check_catalogue(entries).map_err(|fault| (fault.number(), fault.entry()))
}

#[test]
fn the_bench_catalogue_is_accepted(rt: HostRuntime) {
    assert_eq!(rt; checked(&bench_catalogue()), Ok(()));
}

#[test]
fn each_fault_is_told_with_its_entry(rt: HostRuntime) {
    assert_eq!(rt; checked(&[]), Err((1, 0)));
    assert_eq!(rt; checked(&[bench_catalogue()[0]; 129]), Err((1, 0)));
    // item fff
    let mut entries = bench_catalogue();
    entries[4].key = 0x2091_0fff;
    assert_eq!(rt; checked(&entries), Err((2, 4)));
    // the key of the entry before it
    entries = bench_catalogue();
    entries[3].key = 0x2051_0001;
    assert_eq!(rt; checked(&entries), Err((3, 3)));
    // a default below the least value, a kind that there is not, a value of two in a bit, a bit with a sign
    entries = bench_catalogue();
    entries[2].default = 7;
    assert_eq!(rt; checked(&entries), Err((4, 2)));
    entries = bench_catalogue();
    entries[5].kind = Kind::from(3);
    assert_eq!(rt; checked(&entries), Err((4, 5)));
    entries = bench_catalogue();
    entries[1].high = 2;
    assert_eq!(rt; checked(&entries), Err((4, 1)));
    entries = bench_catalogue();
    entries[0].kind = Kind::Signed;
    assert_eq!(rt; checked(&entries), Err((4, 0)));
}

#[test]
fn two_s_complement_bounds(rt: HostRuntime) {
    // -2 to 3 in one byte
    let entry = Entry {
        key: 0x2001_0001,
        kind: Kind::Signed,
        default: 0xff,
        low: 0xfe,
        high: 3,
    };
    assert_eq!(rt; checked(&[entry]), Ok(()));
    assert!(rt; entry.allows(0xfe));
    assert!(rt; entry.allows(3));
    assert!(rt; !entry.allows(0xfd));
    assert!(rt; !entry.allows(4));
}

// The sum of the item numbers that a number of the wire names, and how many they are.
fn named(number: u32) -> (usize, usize) {
    let entries = bench_catalogue();
    (0..7usize)
        .filter(|from| next_named(&entries, number, *from) == Some(*from))
        .fold((0usize, 0usize), |(sum, count), item| {
            (sum.saturating_add(item), count.saturating_add(1))
        })
}

#[test]
fn keys_and_selectors_name_items(rt: HostRuntime) {
    assert_eq!(rt; named(0x0fff_0000), (21, 7));
    assert_eq!(rt; named(0x0051_ffff), (3, 3));
    assert_eq!(rt; named(0x0050_ffff), (0, 0));
    assert_eq!(rt; named(0x2051_0001), (2, 1));
    // bits 31..28 of a selector are not read, bits 27..24 of a group's are
    assert_eq!(rt; named(0xf051_ffff), (3, 3));
    assert_eq!(rt; named(0x0151_ffff), (0, 0));
    assert_eq!(rt; find_item(&bench_catalogue(), 0x2051_0001), Some(2));
    assert_eq!(rt; find_item(&bench_catalogue(), 0x0051_ffff), None);
}
