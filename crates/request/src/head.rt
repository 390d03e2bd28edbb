// A request, and the head of its payload: which layers and which action it names, and the checks of the head of a set or delete.
ghost use Rattle.std.specs.Prelude.{◌≡◌, ◌||◌, ◌==◌, Ok, slice_index};
ghost use Rattle.reference.specs.Requests.{configuration_class, valset, valget, valdel, layers_of, same_layers, action_of};
ghost use Rattle.request.specs.Head.{head_refusal, joining_refusal, after_head};
ghost use Rattle.request.specs.Actions.{action_number};

use crate::action::Action;
use reference::{Layers, Refusal};

// The class of the three requests, and their IDs.
pub const CONFIGURATION_CLASS: u8 = 0x06;

// kept: a `Request` is public and takes any ID, and `layers`, `action` and `read_data` promise something of each; an enum of the three would ask more
// of the caller
pub const VALSET: u8 = 0x8a;

pub const VALGET: u8 = 0x8b;

pub const VALDEL: u8 = 0x8c;

// The bytes before the data: version, layers, action, and one that is not read.
pub const HEAD: usize = 4;

// Whether a frame's class is that of the three requests.
pub fn is_configuration(class: u8) -> bool
    ensures { result ≡ (class == configuration_class) }
{
    class == CONFIGURATION_CLASS
}

// Whether an ID is that of one of the three requests.
// kept: `Request` is public and takes any ID, since `layers`, `action` and `read_data` promise something of each; so the ID is a byte here too
pub fn is_request(id: u8) -> bool
    ensures { result ≡ (id == valset || (id == valget || id == valdel)) }
{
    matches!(id, VALSET | VALGET | VALDEL)
}

// Whether an ID is that of a get.
pub fn is_get(id: u8) -> bool
    ensures { result ≡ (id == valget) }
{
    id == VALGET
}

// A request as it is heard: a frame of the configuration class.
#[derive(Clone, Copy, PartialEq, Eq, Debug)]
pub struct Request<'a> {
    pub id: u8,
    pub payload: &'a [u8],
}

// The byte at a place of a payload; 0 where the payload ends before it.
pub fn byte_at(payload: &[u8], place: usize) -> u8
    ensures { result ≡ slice_index payload.now place }
{
    payload.get(place).copied().unwrap_or(0)
}

// Whether two choices of layers are the same.
// kept: public, and its clause is the promise that callers have of `==`, in the word of the definitions
pub fn same_layers(a: Layers, b: Layers) -> bool
    ensures { result ≡ same_layers a b }
{
    a == b
}

impl Request<'_> {
    // The layers that it is for: bit 0 RAM, 1 BBR, 2 Flash. Only a set chooses RAM, so only there bit 0 is read.
    #[tactic(auto, unfolding(reference::specs::Requests::layers_of))]
    pub fn layers(&self) -> Layers
        ensures { result ≡ layers_of self.now.id self.now.payload.now }
    {
        let byte = byte_at(self.payload, 1);
        Layers {
            ram: self.id == VALSET && byte % 2 == 1,
            bbr: byte / 2 % 2 == 1,
            flash: byte / 4 % 2 == 1,
        }
    }

    // What it does with its data, by the bits 1..0 of a byte; version 0 only applies them.
    #[tactic(auto, unfolding(reference::specs::Requests::action_of))]
    pub fn action(&self) -> Action
        ensures { action_number result ≡ action_of self.now.payload.now }
    {
        if byte_at(self.payload, 0) != 1 {
            return Action::Apply;
        }
        match byte_at(self.payload, 2) % 4 {
            0 => Action::Apply,
            1 => Action::Open,
            2 => Action::Add,
            _ => Action::Close,
        }
    }

    // The checks of its action against the open transaction, which only some join.
    fn check_joining(&self, layers: Layers, opened: Option<Layers>) -> Result<(), Refusal>
        ensures { result ≡ after_head (joining_refusal (action_of self.now.payload.now) self.now.payload.now layers opened) (Ok tt) }
    {
        let action = self.action();
        if !action.joins() {
            return Ok(());
        }
        let others = opened.ok_or(Refusal::NoneOpen)?;
        if !same_layers(others, layers) {
            return Err(Refusal::OtherLayers);
        }
        if action == Action::Add && self.payload.len() <= HEAD {
            return Err(Refusal::NothingAdded);
        }
        Ok(())
    }

    // The checks of the head of a set or delete; the first that does not pass refuses it. `usable` says whether Flash is; `opened` are the layers
    // of the open transaction, none where none is open.
    pub fn check_head(&self, usable: bool, opened: Option<Layers>) -> Result<(), Refusal>
        ensures { result ≡ after_head (head_refusal self.now.id self.now.payload.now usable opened) (Ok tt) }
    {
        if byte_at(self.payload, 0) > 1 {
            return Err(Refusal::UnknownVersion);
        }
        let layers = self.layers();
        if !layers.ram && !layers.bbr && !layers.flash {
            return Err(Refusal::NoLayer);
        }
        if layers.flash && !usable {
            return Err(Refusal::WrongLayer);
        }
        self.check_joining(layers, opened)
    }
}
