// Values in bytes.
use item::{Size, ValueFault, read_value, write_value};

#[test]
fn values_are_little_endian(rt: HostRuntime) {
    let bytes = [0x43, 0x12, 0, 0, 0, 0, 0, 0x80];
    assert_eq!(rt; read_value(Size::Bit, &bytes), Some(1));
    assert_eq!(rt; read_value(Size::One, &bytes), Some(0x43));
    assert_eq!(rt; read_value(Size::Two, &bytes), Some(0x1243));
    assert_eq!(rt; read_value(Size::Four, &bytes), Some(0x1243));
    assert_eq!(rt;
        read_value(Size::Eight, &bytes),
        Some(0x8000_0000_0000_1243)
    );
    assert_eq!(rt; read_value(Size::Eight, &bytes[0..7]), None);
}

#[test]
fn values_are_written_at_their_place(rt: HostRuntime) {
    let mut out = [0xeeu8; 6];
    assert_eq!(rt; write_value(&mut out, 1, Size::Four, 0x2051_0001), Ok(5));
    assert!(rt; &out == &[0xee, 0x01, 0x00, 0x51, 0x20, 0xee]);
    assert_eq!(rt;
        write_value(&mut out, 3, Size::Four, 0),
        Err(ValueFault::BufferTooShort)
    );
    assert_eq!(rt;
        write_value(&mut out, 0, Size::Bit, 2),
        Err(ValueFault::Unfit)
    );
    assert_eq!(rt;
        write_value(&mut out, 9, Size::One, 256),
        Err(ValueFault::Unfit)
    );
    assert!(rt; &out == &[0xee, 0x01, 0x00, 0x51, 0x20, 0xee]);
}
