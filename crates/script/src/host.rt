// The commands of the host end: requests that are to be written, alone or in a transaction.
ghost use Rattle.std.specs.Prelude.{◌≡◌};
ghost use Rattle.script.specs.Words.{ReadsAlone, ReadsKeys};
ghost use Rattle.script.specs.Hosts.{ReadsHost, ReadsAsked, ReadsGet, ReadsBegin, ReadsAdd, ReadsSettings};

use crate::fault::LineFault;
use crate::field::{count_in, key_in, layer_in, position_in, value_in};
use layer::Setting;
use std::alloc::Global;

const SET: &str = "hostset SIZE LAYERS [KEY VALUE...]";

const DELETE: &str = "hostdel SIZE LAYERS [KEY...]";

const GET: &str = "hostget SIZE LAYER POSITION [KEY...]";

const BEGIN: &str = "hostbegin set|del SIZE LAYERS [KEY VALUE...]|[KEY...]";

const ADD: &str = "hostadd SIZE [KEY VALUE...]|[KEY...]";

const END: &str = "no word behind hostapply or hostabandon";

// A set or delete: how many bytes the buffer has, the layers' bits, and the entries.
#[derive(Drop)]
pub struct Asked<E> {
    pub room: usize,
    pub layers: u8,
    pub entries: Vec<E>,
}

#[derive(Drop)]
pub enum HostCommand {
    Set(Asked<Setting>),
    Delete(Asked<u32>),
    Get {
        room: usize,
        layer: u8,
        position: u16,
        numbers: Vec<u32>,
    },
    BeginSets(Asked<Setting>),
    BeginDeletes(Asked<u32>),
    // the same words as pairs and as keys; the transaction that is begun says which are meant
    Add {
        room: usize,
        settings: Result<Vec<Setting>, LineFault>,
        numbers: Result<Vec<u32>, LineFault>,
    },
    Apply,
    Abandon,
}

pub(crate) fn read_host(heap: Global, name: &str, words: &[&str]) -> Result<HostCommand, LineFault>
    ensures { ReadsHost name.now words.now result }
{
    match name {
        "hostset" => set_in(heap, words, SET).map(HostCommand::Set),
        "hostdel" => delete_in(heap, words, DELETE).map(HostCommand::Delete),
        "hostget" => get_in(heap, words),
        "hostbegin" => begin_in(heap, words),
        "hostadd" => add_in(heap, words),
        "hostapply" => end_in(words, HostCommand::Apply),
        "hostabandon" => end_in(words, HostCommand::Abandon),
        _ => Err(LineFault::UnknownCommand),
    }
}

fn set_in(heap: Global, words: &[&str], form: &'static str) -> Result<Asked<Setting>, LineFault>
    ensures { ReadsAsked (ReadsSettings form.now) form.now words.now result }
{
    let [room, layers, pairs @ ..] = words else {
        return Err(LineFault::Form(form));
    };
    Ok(Asked {
        room: count_in(room)?,
        layers: layer_in(layers)?,
        entries: settings_in(heap, pairs, form)?,
    })
}

fn delete_in(heap: Global, words: &[&str], form: &'static str) -> Result<Asked<u32>, LineFault>
    ensures { ReadsAsked ReadsKeys form.now words.now result }
{
    let [room, layers, numbers @ ..] = words else {
        return Err(LineFault::Form(form));
    };
    Ok(Asked {
        room: count_in(room)?,
        layers: layer_in(layers)?,
        entries: numbers_in(heap, numbers)?,
    })
}

fn get_in(heap: Global, words: &[&str]) -> Result<HostCommand, LineFault>
    ensures { ReadsGet words.now result }
{
    let [room, layer, position, numbers @ ..] = words else {
        return Err(LineFault::Form(GET));
    };
    Ok(HostCommand::Get {
        room: count_in(room)?,
        layer: layer_in(layer)?,
        position: position_in(position)?,
        numbers: numbers_in(heap, numbers)?,
    })
}

fn begin_in(heap: Global, words: &[&str]) -> Result<HostCommand, LineFault>
    ensures { ReadsBegin words.now result }
{
    match words {
        ["set", rest @ ..] => set_in(heap, rest, BEGIN).map(HostCommand::BeginSets),
        ["del", rest @ ..] => delete_in(heap, rest, BEGIN).map(HostCommand::BeginDeletes),
        _ => Err(LineFault::Form(BEGIN)),
    }
}

fn add_in(heap: Global, words: &[&str]) -> Result<HostCommand, LineFault>
    ensures { ReadsAdd words.now result }
{
    let [room, entries @ ..] = words else {
        return Err(LineFault::Form(ADD));
    };
    Ok(HostCommand::Add {
        room: count_in(room)?,
        settings: settings_in(heap, entries, ADD),
        numbers: numbers_in(heap, entries),
    })
}

fn end_in(words: &[&str], command: HostCommand) -> Result<HostCommand, LineFault>
    ensures { ReadsAlone END.now command words.now result }
{
    match words {
        [] => Ok(command),
        _ => Err(LineFault::Form(END)),
    }
}

fn settings_in(heap: Global, words: &[&str], form: &'static str) -> Result<Vec<Setting>, LineFault>
    ensures { ReadsSettings form.now words.now result }
{
    let mut settings = Vec::new(heap);
    for pair in words.chunks(2) {
        let [key, value] = pair else {
            return Err(LineFault::Form(form));
        };
        settings.push(Setting {
            key: key_in(key)?,
            value: value_in(value)?,
        })?;
    }
    Ok(settings)
}

fn numbers_in(heap: Global, words: &[&str]) -> Result<Vec<u32>, LineFault>
    ensures { ReadsKeys words.now result }
{
    let mut numbers = Vec::new(heap);
    for word in words {
        numbers.push(key_in(word)?)?;
    }
    Ok(numbers)
}
