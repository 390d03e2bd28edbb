// A file is an input, and its pieces are handed on in order.
use anyhow::bail;
use options::{Input, for_each_piece};
use std::alloc::Global;
use std::io::{ErrorKind, Read};
use std::rt::HostRuntime;
use std::test::Fail;
use std::{fs, io};

const NAME: &str = "options_tests_input";

// More bytes than one piece has, no two neighbours alike.
fn sent(heap: Global) -> Result<Vec<u8>, Fail> {
    let bytes: Vec<u8> = (0..70000u32)
        .map(|place| (place % 251) as u8)
        .collect(heap)?;
    Ok(bytes)
}

#[test]
fn every_byte_of_a_file_is_handed_on(rt: HostRuntime) -> Result<(), Fail> {
    let heap = rt.alloc();
    let sent = sent(heap)?;
    fs::write(&rt, NAME, sent.as_slice())?;
    let mut input = Input::File(String::from_str(heap, NAME)?, fs::open(&rt, NAME)?);
    let mut got = Vec::new(heap);
    let read = for_each_piece(&mut input, |piece| Ok(got.extend_from_slice(piece)?));
    fs::remove_file(&rt, NAME)?;
    assert!(rt; read.is_ok());
    assert!(rt; got.as_slice() == sent.as_slice());
    Ok(())
}

#[test]
fn a_failure_ends_the_reading(rt: HostRuntime) {
    let mut bytes: &[u8] = &[1, 2, 3];
    let mut calls = 0;
    let read = for_each_piece(&mut bytes, |_piece| {
        calls = 1;
        bail!("no more")
    });
    assert!(rt; read.is_err());
    assert_eq!(rt; calls, 1);
}

// A reader that fails at its second turn, and then gives one byte more.
#[derive(Drop)]
struct Failing {
    turn: u8,
    failure: ErrorKind,
}

impl Read for Failing {
    fn read(&mut self, piece: &mut [u8]) -> io::Result<usize> {
        self.turn = self.turn.saturating_add(1);
        match self.turn {
            2 => Err(io::Error::from(self.failure)),
            4 => Ok(0),
            _ => Ok(piece.len().min(1)),
        }
    }
}

// Whether the reading succeeds, and how many pieces are handed on.
fn read_past(failure: ErrorKind) -> (bool, u32) {
    let mut input = Failing { turn: 0, failure };
    let mut pieces = 0u32;
    let read = for_each_piece(&mut input, |_piece| {
        pieces = pieces.saturating_add(1);
        Ok(())
    });
    (read.is_ok(), pieces)
}

#[test]
fn a_failed_read_ends_the_reading(rt: HostRuntime) {
    assert_eq!(rt; read_past(ErrorKind::BrokenPipe), (false, 1));
}

#[test]
fn an_interrupted_read_is_made_again(rt: HostRuntime) {
    assert_eq!(rt; read_past(ErrorKind::Interrupted), (true, 2));
}
