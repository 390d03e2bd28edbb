// The board on the rock: a receiver with the bench catalogue, a slot table for BBR and, under a saver, a journal for Flash.
use catalogue::bench_catalogue;
use journal::{BLANK, Journal, MIN_WORDS};
use layer::Saver;
use receiver::{ANSWER_ROOM, Parts, Receiver};
use reference::{Answered, Battery, CallFault};
use rule::{Both, Need, Needs, Ranges};
use std::alloc::{AllocError, Global};
use store::SlotTable;

// The port is on where its value is 1. It needs its supply, which is on by default, and the rate needs the port.
pub const PORT: u32 = 0x1051_0002;

pub const RATE: u32 = 0x2091_033b;

const NEEDS: [Need; 2] = [
    Need {
        first: 0,
        second: 1,
    },
    Need {
        first: 3,
        second: 0,
    },
];

#[derive(Drop)]
pub struct Board {
    receiver: Receiver<SlotTable, Saver<Journal>, Both<Ranges, Needs>>,
}

// What the receiver answered to a frame, and the bytes that it wrote.
#[derive(Drop)]
pub struct Reply {
    pub answered: Answered,
    pub bytes: Vec<u8>,
}

impl Board {
    // A board whose journal is blank.
    pub fn new(heap: Global) -> Result<Board, AllocError> {
        let words = vec![in heap; BLANK; MIN_WORDS]?;
        let parts = Parts {
            bbr: SlotTable::new(),
            flash: Saver {
                store: Journal::open(words),
            },
            rule: Both {
                first: Ranges,
                second: Needs::new(&NEEDS),
            },
        };
        Ok(Board {
            receiver: Receiver::make(&bench_catalogue(), parts),
        })
    }

    // Takes a scrap from the radio; it is shorter than the room for it.
    pub fn take(&mut self, scrap: &[u8]) -> Result<usize, CallFault> {
        self.receiver.take(scrap)
    }

    // Answers what is held.
    pub fn answer(&mut self, heap: Global) -> anyhow::Result<Reply> {
        let mut buffer = [0u8; ANSWER_ROOM];
        let answered = self.receiver.answer(&mut buffer)?;
        let written = buffer.get(..answered.length()).unwrap_or(&[]);
        let bytes = Vec::from_slice(heap, written)?;
        Ok(Reply { answered, bytes })
    }

    // What a layer (0 RAM, 2 Flash) holds under a key.
    pub fn look(&self, layer: u8, key: u32) -> Result<Option<u64>, CallFault> {
        self.receiver.look(layer, key)
    }

    // The supply dips while the battery holds.
    pub fn restart(&mut self) -> Result<Option<usize>, CallFault> {
        self.receiver.restart(Battery::Kept)
    }

    // Flash's words up to the first blank.
    pub fn flash_words(&self) -> &[u32] {
        let words = self.receiver.flash().store.words();
        let used = words.iter().take_while(|word| **word != BLANK).count();
        words.get(..used).unwrap_or(words)
    }
}
