// Stray keys: those that a layer holds and no item has.
ghost use Rattle.std.specs.Prelude.{◌≡◌};
ghost use Rattle.catalogue.specs.Owned.{entries_of};
ghost use Rattle.reference.specs.Requests.{is_known};
ghost use Rattle.reference.specs.Parts.{stray_key};

use catalogue::Catalogue;
use layer::Layer;

// Whether an item has the key.
#[tactic(auto, using(crate::proofs::Strays::known_where))]
pub fn is_known(catalogue: &Catalogue, key: u32) -> bool
    ensures { result ≡ is_known (entries_of catalogue.now) key }
{
    catalogue.find(key).is_some()
}

// The least key that the layer holds and no item has. A key that is held is well formed, and so above 0.
pub fn stray_key<L: Layer>(catalogue: &Catalogue, layer: &L) -> Option<u32>
    ensures { result ≡ stray_key (entries_of catalogue.now) (L.Layer.settings layer.now) }
{
    // kept: tried as `successors(layer.next_key(0), ..).find(..)`, and what `find` asks stayed open: an iterator that is known to end, which std never
    // says of `successors`; a `take` between them would need a bound that means nothing here
    let mut number = 0;
    while let Some(key) = layer.next_key(number) {
        if !is_known(catalogue, key) {
            return Some(key);
        }
        number = key;
    }
    None
}
