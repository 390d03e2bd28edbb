// A configuration: a value for each item of a catalogue, in the order of the items.
use catalogue::Entry;

// What a rule judges: the entries of a catalogue, and beside each the value that its item has. The two are of one length where a whole
// configuration is judged; entries without a value, and values without an entry, are not read.
#[derive(Clone, Copy)]
pub struct Configuration<'a> {
    pub entries: &'a [Entry],
    pub values: &'a [u64],
}
