// The calls of a receiver.
ghost use Rattle.std.specs.Prelude.{◌≡◌, if◌then◌else◌, length, Ok, Err};
ghost use Rattle.reference.specs.declared.fault.CallFault.TheVariants.{Shut};
ghost use Rattle.reference.specs.Events.{take_piece, look_at, restart_with};
ghost use Rattle.reference.specs.Requests.{is_known};
ghost use Rattle.receiver.specs.State.{items_of, Kept, took_event, looked_event, restarted_event};
ghost use Rattle.receiver.specs.Stores.{WroteRestart};

use super::Receiver;
use super::meaning::Meaning;
use configuration::{StoreMeaning, after_battery, is_known, stack_ram};
use held::Held;
use layer::{Layer, Store};
use reference::{Battery, CallFault};
use rule::Rule;

impl<B: Store, F: Store, R: Rule> Receiver<B, F, R> {
    // The first check of each call that can be refused: a shut receiver refuses it.
    pub(crate) fn check_open(&self) -> Result<(), CallFault>
        ensures { result ≡ (if self.now.shut then Err Shut else Ok tt) }
    {
        if self.shut {
            return Err(CallFault::Shut);
        }
        Ok(())
    }

    // Takes bytes from the front of a piece until it ends or 780 are held; answers how many.
    #[tactic(auto, using(crate::proofs::Calls::by_taking))]
    pub fn take(&mut self, piece: &[u8]) -> Result<usize, CallFault>
        ensures after { ⟦<Self as Meaning>⟧.state self.new ≡ (⟦<Self as Meaning>⟧.step self.old (take_piece piece.now)).state }
        ensures event { took_event piece.now result ≡ (⟦<Self as Meaning>⟧.step self.old (take_piece piece.now)).event }
        ensures kept { Kept self.old self.new }
        ensures stores { self.new.layers ≡ self.old.layers }
    {
        self.check_open()?;
        Ok(self.held.append(piece))
    }

    // How many bytes are held.
    pub fn held_count(&self) -> usize
        ensures { result ≡ length (⟦<Self as Meaning>⟧.state self.now).held_bytes }
    {
        self.held.as_slice().len()
    }

    // The store at BBR's place, to be read.
    pub fn bbr(&self) -> &B
        ensures value { ⟦<B as StoreMeaning>⟧.store result.now ≡ (⟦<Self as Meaning>⟧.state self.now).bbr }
        ensures same { result.now ≡ self.now.layers.upper.upper }
    {
        &self.layers.upper.upper
    }

    // The store at Flash's place, to be read.
    pub fn flash(&self) -> &F
        ensures value { ⟦<F as StoreMeaning>⟧.store result.now ≡ (⟦<Self as Meaning>⟧.state self.now).flash }
        ensures same { result.now ≡ self.now.layers.upper.lower }
    {
        &self.layers.upper.lower
    }

    // Whether an item has this key.
    fn knows(&self, key: u32) -> bool
        ensures { result ≡ is_known (items_of self.now) key }
    {
        is_known(&self.layers.lower.catalogue, key)
    }

    // What a layer (0 RAM, 1 BBR, 2 Flash, 7 the defaults) holds under the key of an item.
    #[tactic(auto, using(crate::proofs::Calls::by_looking))]
    pub fn look(&self, layer: u8, key: u32) -> Result<Option<u64>, CallFault>
        ensures { looked_event layer key result ≡ (⟦<Self as Meaning>⟧.step self.now (look_at layer key)).event }
    {
        self.check_open()?;
        let layer = self.layer(layer).ok_or(CallFault::WrongLayer)?;
        if !self.knows(key) {
            return Err(CallFault::UnknownKey);
        }
        Ok(layer.value(key))
    }

    // Drops the held bytes and the transaction, clears BBR where the battery was lost, and stacks RAM anew; answers the item at fault where
    // the stack was unfit, so that RAM is the defaults alone.
    #[tactic(auto, using(crate::proofs::Calls::by_restarting))]
    pub fn restart(&mut self, battery: Battery) -> Result<Option<usize>, CallFault>
        ensures after { ⟦<Self as Meaning>⟧.state self.new ≡ (⟦<Self as Meaning>⟧.step self.old (restart_with battery)).state }
        ensures event { restarted_event battery result ≡ (⟦<Self as Meaning>⟧.step self.old (restart_with battery)).event }
        ensures kept { Kept self.old self.new }
        ensures stores { WroteRestart ⟦<B as StoreMeaning>⟧.memory battery result self.old.layers self.new.layers }
    {
        self.check_open()?;
        after_battery(battery, &mut self.layers.upper.upper);
        let stacked = stack_ram(&self.layers, &self.rule);
        self.ram = stacked.ram;
        self.held = Held::new();
        self.transaction = None;
        Ok(stacked.fault)
    }
}
