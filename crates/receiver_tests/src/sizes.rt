// How many bytes a receiver and its parts have. docs/receiver.md has this table: what is changed here is to be changed there.
use crate::bench::Bench;
use catalogue::Catalogue;
use held::Held;
use receiver::Receiver;
use request::ItemChanges;
use rule::{Both, Needs, Ranges};
use std::mem::size_of;
use store::{Defaults, SlotTable};

type TwoTables = Receiver<SlotTable, SlotTable, Both<Ranges, Needs>>;

#[test]
fn sizes_are_those_of_the_table(rt: HostRuntime) {
    assert_eq!(rt; size_of::<TwoTables>(), 18664, "over two slot tables");
    assert_eq!(rt; size_of::<Bench>(), 15592, "with no Flash");
    assert_eq!(rt; size_of::<SlotTable>(), 3072, "a slot table");
    assert_eq!(rt; size_of::<Catalogue>(), 4104, "the catalogue");
    assert_eq!(rt; size_of::<Defaults>(), 4104, "the defaults");
    assert_eq!(rt; size_of::<Held>(), 3144, "the held bytes");
    assert_eq!(rt; size_of::<ItemChanges>(), 1152, "the queue");
    assert_eq!(rt; size_of::<Needs>(), 1032, "the needs");
}
