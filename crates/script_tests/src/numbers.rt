// Numbers in text: their edges, and what is none.
use script::{read_byte, read_count, read_kind, read_layer, read_position, read_value, read_word};

#[test]
fn hexadecimal_numbers(rt: HostRuntime) {
    assert_eq!(rt; read_word("20510001"), Some(0x2051_0001));
    assert_eq!(rt; read_word("aBcDeF09"), Some(0xabcd_ef09));
    assert_eq!(rt; read_word("ffffffff"), Some(u32::MAX));
    assert_eq!(rt;
        read_word("0000000000000000000000000000000000ff"),
        Some(255)
    );
    assert_eq!(rt; read_word("100000000"), None);
    assert_eq!(rt; read_word("100000000000000000000000000000000"), None);
    assert_eq!(rt; read_byte("0"), Some(0));
    assert_eq!(rt; read_byte("ff"), Some(255));
    assert_eq!(rt; read_byte("100"), None);
}

#[test]
fn decimal_numbers(rt: HostRuntime) {
    assert_eq!(rt; read_value("0"), Some(0));
    assert_eq!(rt; read_value("0790"), Some(790));
    assert_eq!(rt; read_value("18446744073709551615"), Some(u64::MAX));
    assert_eq!(rt; read_value("18446744073709551616"), None);
    assert_eq!(rt; read_kind("255"), Some(255));
    assert_eq!(rt; read_kind("256"), None);
    assert_eq!(rt; read_position("65535"), Some(u16::MAX));
    assert_eq!(rt; read_position("65536"), None);
}

// What is above the most that counts is told as that.
#[test]
fn capped_numbers(rt: HostRuntime) {
    assert_eq!(rt; read_count("790"), Some(790));
    assert_eq!(rt; read_count("18446744073709551615"), Some(usize::MAX));
    assert_eq!(rt; read_count("18446744073709551616"), Some(usize::MAX));
    assert_eq!(rt;
        read_count("400000000000000000000000000000000000000000"),
        Some(usize::MAX)
    );
    assert_eq!(rt; read_layer("7"), Some(7));
    assert_eq!(rt; read_layer("255"), Some(255));
    assert_eq!(rt; read_layer("256"), Some(255));
    assert_eq!(rt; read_layer("263"), Some(255));
}

#[test]
fn no_numbers(rt: HostRuntime) {
    let words = [
        "",
        "0x1",
        "+1",
        "-1",
        "1_0",
        "1.0",
        " 1",
        "g",
        "١",
        "999999999999999999999999x",
    ];
    for word in words {
        assert_eq!(rt; read_word(word), None);
        assert_eq!(rt; read_value(word), None);
        assert_eq!(rt; read_count(word), None);
    }
    assert_eq!(rt; read_value("1a"), None);
    assert_eq!(rt; read_layer("a"), None);
}
