// What a layer holds under the keys of a catalogue, gathered into a slot table.
ghost use Rattle.std.specs.Prelude.{◌≡◌};
ghost use Rattle.catalogue.specs.Owned.{entries_of};
ghost use Rattle.layer.specs.Settings.{value_under};
ghost use Rattle.store.specs.Slots.{settings_of};
ghost use Rattle.configuration.specs.Meaning.{gathering, held_under};

use catalogue::Catalogue;
use layer::{Layer, Store};
use store::SlotTable;

// What the layer holds under one key.
fn gather_one<L: Layer>(layer: &L, key: u32, table: &mut SlotTable)
    ensures { settings_of table.new.slots ≡ gathering key (value_under key (L.Layer.settings layer.now)) (settings_of table.old.slots) }
{
    if let Some(value) = layer.value(key) {
        let _ = table.put(key, value);
    }
}

// A table with what the layer holds under the catalogue's keys. They ascend, and there is room for 128: so no put is refused.
#[tactic(auto, using(crate::proofs::Tables::gathered_all))]
pub fn gathered<L: Layer>(catalogue: &Catalogue, layer: &L) -> SlotTable
    ensures { settings_of result.slots ≡ held_under (entries_of catalogue.now) (L.Layer.settings layer.now) }
{
    let mut table = SlotTable::new();
    for entry in catalogue.entries() {
        gather_one(layer, entry.key, &mut table);
    }
    table
}
