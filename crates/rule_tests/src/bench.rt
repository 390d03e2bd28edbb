// The bench rule: ranges, then item 0 needs item 1.
use catalogue::{Entry, Kind, bench_catalogue};
use rule::{Configuration, Need, Needs, Ranges, Rule, bench_rule, is_fit};

// What the bench rule finds of one value for each item.
fn found(values: &[u64]) -> Option<usize> {
    bench_rule().find(Configuration {
        entries: &bench_catalogue(),
        values,
    })
}

#[test]
fn fit_and_unfit_configurations(rt: HostRuntime) {
    // the defaults
    assert_eq!(rt; found(&[0, 1, 65, 0, 0, 0, 0]), None);
    // bounds are within, and what is outside is named, the lowest first
    assert_eq!(rt; found(&[0, 1, 8, 10, 10, 255, 255]), None);
    assert_eq!(rt; found(&[0, 1, 7, 11, 0, 0, 0]), Some(2));
    assert_eq!(rt; found(&[0, 1, 120, 0, 0, 0, 0]), Some(2));
    // item 0 without item 1
    assert_eq!(rt; found(&[1, 0, 65, 0, 0, 0, 0]), Some(0));
    assert_eq!(rt; found(&[1, 1, 65, 0, 0, 0, 0]), None);
    // ranges are found first
    assert_eq!(rt; found(&[1, 0, 65, 0, 11, 0, 0]), Some(4));
    // a value for some items only
    assert_eq!(rt; found(&[1]), None);
    let nothing = Configuration {
        entries: &bench_catalogue(),
        values: &[],
    };
    assert!(rt; is_fit(&Ranges, nothing));
}

#[test]
fn two_s_complement_ranges(rt: HostRuntime) {
    let entries = [Entry {
        key: 0x2001_0001,
        kind: Kind::Signed,
        default: 0,
        low: 0xfe,
        high: 3,
    }];
    let found = |value: u64| {
        Ranges.find(Configuration {
            entries: &entries,
            values: &[value],
        })
    };
    assert_eq!(rt; found(0xff), None);
    assert_eq!(rt; found(0xfd), Some(0));
    assert_eq!(rt; found(4), Some(0));
}

#[test]
fn pairs_of_needs(rt: HostRuntime) {
    let configuration = Configuration {
        entries: &bench_catalogue(),
        values: &[1, 1, 1, 0, 0, 0, 0],
    };
    // the first broken pair counts, and a pair beyond the catalogue is never broken
    let pairs = [
        Need {
            first: 0,
            second: 7,
        },
        Need {
            first: 2,
            second: 3,
        },
        Need {
            first: 1,
            second: 4,
        },
    ];
    assert_eq!(rt; Needs::new(&pairs).find(configuration), Some(2));
    // the 64th pair is read, the 65th is not
    let mut many = [Need {
        first: 9,
        second: 9,
    }; 65];
    many[63] = pairs[1];
    assert_eq!(rt; Needs::new(&many).find(configuration), Some(2));
    many[63] = many[0];
    many[64] = pairs[1];
    assert_eq!(rt; Needs::new(&many).find(configuration), None);
}
