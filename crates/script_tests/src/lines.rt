// Lines that are commands.
use catalogue::Kind;
use journal::{BLANK, MIN_WORDS};
use reference::Battery;
use script::{Choice, Command, Medium, OwnCall, Part, Place, read_line};
use std::alloc::Global;
use std::test::Fail;

fn is_skipped(heap: Global, line: &str) -> bool {
    matches!(read_line(heap, line), Ok(None))
}

#[test]
fn skipped_lines(rt: HostRuntime) {
    for line in ["", "   ", "# note", "#", "  #= make 0", "\r"] {
        assert!(rt; is_skipped(rt.alloc(), line), "{}", line);
    }
    assert!(rt; !is_skipped(rt.alloc(), "make # not a note"));
}

#[test]
fn parts(rt: HostRuntime) -> Result<(), Fail> {
    let heap = rt.alloc();
    let Ok(Some(Command::SetUp(Part::Entry(entry)))) = read_line(
        heap,
        "entry 2091033b 1 2 3 18446744073709551615",
    ) else {
        return Err(Fail::new("no entry"));
    };
    assert_eq!(rt; entry.key, 0x2091_033b);
    assert_eq!(rt; entry.kind, Kind::Signed);
    assert_eq!(rt; entry.default, 2);
    assert_eq!(rt; entry.low, 3);
    assert_eq!(rt; entry.high, u64::MAX);
    let Ok(Some(Command::SetUp(Part::Need(need)))) = read_line(heap, "need 5 6") else {
        return Err(Fail::new("no need"));
    };
    assert_eq!(rt; need.first, 5);
    assert_eq!(rt; need.second, 6);
    Ok(())
}

// The place and the choice that a line names.
fn named(heap: Global, line: &str) -> Option<(Place, Choice)> {
    let Ok(Some(Command::SetUp(Part::Store(place, choice)))) = read_line(heap, line) else {
        return None;
    };
    Some((place, choice))
}

#[test]
fn stores(rt: HostRuntime) -> Result<(), Fail> {
    let heap = rt.alloc();
    assert_eq!(rt;
        named(heap, "bbr slots"),
        Some((Place::Bbr, Choice::Bare(Medium::Slots)))
    );
    assert_eq!(rt;
        named(heap, "flash absent"),
        Some((Place::Flash, Choice::Bare(Medium::Absent)))
    );
    assert_eq!(rt;
        named(heap, "flash saver slots"),
        Some((Place::Flash, Choice::Saved(Medium::Slots)))
    );
    assert_eq!(rt;
        named(heap, "bbr saver absent"),
        Some((Place::Bbr, Choice::Saved(Medium::Absent)))
    );
    let mut words = Vec::from_slice(heap, &[0x0025_1001, 0x4000_0042])?;
    words.resize(MIN_WORDS, BLANK)?;
    assert_eq!(rt;
        named(heap, "flash saver journal 640 00251001 40000042"),
        Some((Place::Flash, Choice::Saved(Medium::Words(words))))
    );
    assert_eq!(rt;
        named(heap, "bbr journal 1 7 8"),
        Some((
            Place::Bbr,
            Choice::Bare(Medium::Words(Vec::from_slice(heap, &[7])?))
        ))
    );
    assert_eq!(rt; named(heap, "bbr saver saver slots"), None);
    assert_eq!(rt; named(heap, "bbr slots 640"), None);
    Ok(())
}

#[test]
fn takes(rt: HostRuntime) -> Result<(), Fail> {
    let heap = rt.alloc();
    let Ok(Some(Command::Call(OwnCall::Take(bytes)))) = read_line(heap, "take b5  62\t6 0A") else {
        return Err(Fail::new("no piece"));
    };
    assert!(rt; bytes.as_slice() == [0xb5, 0x62, 0x06, 0x0a].as_slice());
    let Ok(Some(Command::Call(OwnCall::Take(none)))) = read_line(heap, "take") else {
        return Err(Fail::new("no piece of no bytes"));
    };
    assert!(rt; none.is_empty());
    Ok(())
}

#[test]
fn calls(rt: HostRuntime) -> Result<(), Fail> {
    let heap = rt.alloc();
    let Ok(Some(Command::Call(OwnCall::Answer(size)))) = read_line(heap, "answer 790") else {
        return Err(Fail::new("no answering"));
    };
    assert_eq!(rt; size, 790);
    let Ok(Some(Command::Call(OwnCall::Look(layer, key)))) = read_line(heap, "look 7 20510001")
    else {
        return Err(Fail::new("no looking"));
    };
    assert_eq!(rt; layer, 7);
    assert_eq!(rt; key, 0x2051_0001);
    let Ok(Some(Command::Call(OwnCall::Restart(Battery::Lost)))) = read_line(heap, "restart lost")
    else {
        return Err(Fail::new("no restart"));
    };
    let Ok(Some(Command::New)) = read_line(heap, "new") else {
        return Err(Fail::new("no beginning"));
    };
    let Ok(Some(Command::Make)) = read_line(heap, "make") else {
        return Err(Fail::new("no making"));
    };
    Ok(())
}
