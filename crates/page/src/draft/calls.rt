// Beginning a page, and adding what a layer holds under the keys that are named.
ghost use Rattle.std.specs.Prelude.{◌≡◌, ℕ, ◌-◌, ◌<◌, ◌≤◌, List, ◌∷◌, ◌++◌, length};
ghost use Rattle.item.specs.Selectors.{selector_of};
ghost use Rattle.item.specs.Values.{number};
ghost use Rattle.layer.specs.declared.setting.Setting.{Setting};
ghost use Rattle.reference.specs.Requests.{keys_named};
ghost use Rattle.reference.specs.Receiver.{pair_bytes};
ghost use Rattle.page.specs.Drafts.{payload_of, finished, finished_by};

use super::Draft;
use crate::pair::Pair;
use arrayvec::ArrayVec;
use catalogue::{Entry, next_named};
use layer::{Layer, Setting};
use request::{PAIR_ROOM, write_pair};

// The version of a reply.
const REPLY_VERSION: u8 = 1;

// The most pairs of a page.
const MAX_PAIRS: usize = 64;

impl Draft {
    // A page with no pairs yet: its version, then layers and position as the request has them. The position says how many pairs are skipped.
    #[tactic(auto, using(crate::proofs::Drafted::position_is))]
    pub(crate) fn new(layers: u8, position: [u8; 2]) -> Draft
        ensures head { payload_of result ≡ 1 ∷ layers ∷ position }
        ensures skip { result.skip ≡ number position }
        ensures left { result.left ≡ 64 }
    {
        let [low, high] = position;
        let mut bytes = ArrayVec::new();
        bytes
            .try_extend_from_slice(&[REPLY_VERSION, layers, low, high])
            .unwrap();
        Draft {
            bytes,
            skip: u16::from_le_bytes(position) as usize,
            left: MAX_PAIRS,
        }
    }

    // The payload so far.
    pub(crate) fn payload(&self) -> &[u8]
        ensures value { result.now ≡ payload_of self.now }
        ensures few { length result.now ≤ 772 }
    {
        self.bytes.as_slice()
    }

    // Writes a pair behind the others.
    #[tactic(auto, using(crate::proofs::Pairs::setting_fits, request::proofs::PairBytes::pair_few, request::proofs::PairBytes::pair_taken))]
    fn put(&mut self, pair: &Pair)
        requires room { 0 < self.old.left }
        ensures after { payload_of self.new ≡ payload_of self.old ++ pair_bytes pair.now.setting }
        ensures left { self.new.left ≡ self.old.left - 1 }
        ensures skip { self.new.skip ≡ self.old.skip }
    {
        let mut bytes = [0; PAIR_ROOM];
        let count = write_pair(&mut bytes, pair.setting).unwrap();
        self.bytes.try_extend_from_slice(&bytes[..count]).unwrap();
        self.left -= 1;
    }

    // Adds a setting: it is skipped, or written, or behind the page's last.
    #[tactic(auto, using(crate::proofs::Drafted::finished_skip, crate::proofs::Drafted::finished_put, crate::proofs::Drafted::finished_full))]
    fn add(&mut self, pair: &Pair)
        ensures { (ss : List Setting) → finished self.new ss ≡ finished self.old (pair.now.setting ∷ ss) }
    {
        if self.skip > 0 {
            self.skip -= 1;
        } else if self.left > 0 {
            self.put(pair);
        }
    }

    // Adds what a layer holds under a key.
    #[tactic(auto, using(crate::proofs::Drafted::held_some, crate::proofs::Drafted::held_none))]
    fn add_held<L: Layer>(&mut self, layer: &L, key: u32)
        ensures { (ks : List ℕ) → finished_by (L.Layer.settings layer.now) self.new ks ≡ finished_by (L.Layer.settings layer.now) self.old (key ∷ ks) }
    {
        if let Some(value) = layer.value(key) {
            self.add(&Pair {
                setting: Setting { key, value },
            });
        }
    }

    // Adds what a layer holds under the keys that a number of the wire names.
    // kept: the walk of the catalogue, asked again from the place behind its answer; a `for` over the entries that asks each whether it is named takes twice
    // as long for a key
    pub(crate) fn add_named<L: Layer>(&mut self, entries: &[Entry], layer: &L, number: u32)
        ensures { (ks : List ℕ) → finished_by (L.Layer.settings layer.now) self.new ks ≡ finished_by (L.Layer.settings layer.now) self.old (keys_named (selector_of number) entries.now ++ ks) }
    {
        let mut from = 0;
        while let Some(item) = next_named(entries, number, from) {
            self.add_held(layer, entries[item].key);
            from = item + 1;
        }
    }
}
