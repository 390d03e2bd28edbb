// Watching a replay: the receiver is lent for reading before the first call and after each, so that what is seen changes nothing.
ghost use Rattle.std.specs.Prelude.{IfOk};
ghost use Rattle.reference.specs.Receiver.{State};

use layer::Store;
use receiver::{Meaning, Receiver};
use rule::Rule;
use std::alloc::AllocError;

pub trait Watch<B: Store, F: Store, R: Rule> {
    // what it may become by seeing a receiver in a state
    ghost saw: { Self → State → Self → Type 0 };

    fn see(&mut self, receiver: &Receiver<B, F, R>) -> Result<(), AllocError>
        ensures { IfOk result (λ _. saw self.old (⟦<Receiver<B, F, R> as Meaning>⟧.state receiver.now) self.new) };
}

// Watches nothing.
#[derive(Clone, Copy)]
pub struct Unwatched;

impl<B: Store, F: Store, R: Rule> Watch<B, F, R> for Unwatched {
    ghost saw = { λ before state after. Unit {0} };

    fn see(&mut self, _receiver: &Receiver<B, F, R>) -> Result<(), AllocError> {
        Ok(())
    }
}
