// What a script wants to see of the journals between the calls.
use crate::answers::written_part;
use any_store::AnyStore;
use receiver::Receiver;
use replay::Watch;
use rule::Rule;
use script::Place;
use std::alloc::{AllocError, Global};

// The words at a place, after so many calls.
#[derive(Clone, Copy)]
pub struct Wanted {
    pub calls: usize,
    pub place: Place,
}

// The words that were seen so far, in the order in which they are wanted; none of a store that is no journal.
#[derive(Drop)]
pub struct SeenWords<'a> {
    heap: Global,
    wanted: &'a [Wanted],
    // how many calls were carried out
    calls: usize,
    seen: Vec<Option<Vec<u32>>>,
}

impl<'a> SeenWords<'a> {
    pub fn new(heap: Global, wanted: &'a [Wanted]) -> SeenWords<'a> {
        SeenWords {
            heap,
            wanted,
            calls: 0,
            seen: Vec::new(heap),
        }
    }

    pub fn words(&self) -> &[Option<Vec<u32>>] {
        self.seen.as_slice()
    }

    fn keep(&mut self, store: &AnyStore) -> Result<(), AllocError> {
        let words = match store.words() {
            Some(words) => Some(Vec::from_slice(self.heap, written_part(words))?),
            None => None,
        };
        self.seen.push(words)?;
        Ok(())
    }
}

impl<'a, R: Rule> Watch<AnyStore, AnyStore, R> for SeenWords<'a> {
    // what it keeps is only printed
    ghost saw = { λ before state after. Unit {0} };

    fn see(&mut self, receiver: &Receiver<AnyStore, AnyStore, R>) -> Result<(), AllocError> {
        for wanted in self.wanted.get(self.seen.len()..).unwrap_or(&[]) {
            if wanted.calls != self.calls {
                break;
            }
            self.keep(match wanted.place {
                Place::Bbr => receiver.bbr(),
                Place::Flash => receiver.flash(),
            })?;
        }
        self.calls = self.calls.saturating_add(1);
        Ok(())
    }
}
