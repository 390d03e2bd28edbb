// Whole lines: what is heard in them, at once and in pieces.
use frame::{Frame, Heard, check_bytes, scan, write_frame};
use monitor::{Counts, Monitor};
use std::alloc::Global;
use std::test::Fail;

// A false start hides a frame until it is decided. Its class and ID are b5 62, the first two bytes of the hidden frame, and its length is
// 772, by the class and ID 04 03 of the hidden frame. With 769 bytes behind the hidden frame the false start still waits for its last byte.
#[test]
fn a_hidden_frame_is_heard_with_770_bytes_behind_it(rt: HostRuntime) -> Result<(), Fail> {
    let mut line = [0u8; 780];
    line[0] = 0xb5;
    line[1] = 0x62;
    let hidden = Frame {
        class: 0x04,
        id: 0x03,
        payload: &[],
    };
    write_frame(&mut line[2..780], &hidden)?;
    let sums = check_bytes(&line[2..778]);
    line[778] = sums.a;
    line[779] = sums.b ^ 1;
    let before = scan(rt.alloc(), &line[0..779])?;
    assert_eq!(rt; before.frames.len(), 0);
    assert_eq!(rt; before.noise, 0);
    assert_eq!(rt; before.rest.len(), 779);
    let after = scan(rt.alloc(), &line)?;
    let heard = Heard {
        place: 2,
        frame: hidden,
    };
    assert_eq!(rt; after.frames.as_slice(), [heard].as_slice());
    assert_eq!(rt; after.noise, 772);
    Ok(())
}

// The set request and its ACK, with static around them and a cut frame at the end.
const LINE: [u8; 40] = [
    0x00, 0xb5, 0xb5, 0x62, 0x06, 0x8a, 0x09, 0x00, 0x00, 0x01, 0x00, 0x00, 0x01, 0x00, 0x51, 0x20,
    0x42, 0x4e, 0xab, 0x62, 0xb5, 0x62, 0x05, 0x01, 0x02, 0x00, 0x06, 0x8a, 0x98, 0xc1, 0xff, 0xb5,
    0x62, 0x06, 0x8b, 0x08, 0x00, 0x00, 0x00, 0x00,
];

// Feeds the line in pieces of this size, and adds up the places of the frames that are heard.
fn places(heap: Global, monitor: &mut Monitor, size: usize) -> Result<u64, Fail> {
    let mut sum = 0u64;
    for piece in LINE.chunks(size.max(1)) {
        for row in monitor.feed(heap, piece)?.iter() {
            sum = sum.saturating_add(row.place);
        }
    }
    Ok(sum)
}

#[test]
fn pieces_of_every_size_give_the_same_listing(rt: HostRuntime) -> Result<(), Fail> {
    for size in 1..41 {
        let mut monitor = Monitor::new(rt.alloc());
        assert_eq!(rt; places(rt.alloc(), &mut monitor, size)?, 22);
        let counts = Counts {
            frames: 2,
            noise: 4,
            held: 9,
        };
        assert_eq!(rt; monitor.counts(), counts);
    }
    Ok(())
}

// A contract lets any piece be refused for want of memory; these are taken.
#[test]
fn pieces_of_no_byte_and_of_many_are_taken(rt: HostRuntime) -> Result<(), Fail> {
    let heap = rt.alloc();
    let mut monitor = Monitor::new(heap);
    for length in [0, 1, 0, 32 * 1024, 0] {
        let piece = vec![in heap; 0xb5u8; length]?;
        assert_eq!(rt; monitor.feed(heap, piece.as_slice())?.len(), 0);
    }
    let counts = Counts {
        frames: 0,
        noise: 32 * 1024,
        held: 1,
    };
    assert_eq!(rt; monitor.counts(), counts);
    Ok(())
}
