// The payloads of the requests: a head, and behind it entry by entry, each checked before it is added.
ghost use Rattle.std.specs.Prelude.{◌≡◌, ◌+◌, ◌≤◌, ◌∷◌, ◌++◌, length, OnOk};
ghost use Rattle.arrayvec.specs.ArrayVec.{array_vec_len};
ghost use Rattle.item.specs.Values.{bytes_of};
ghost use Rattle.reference.specs.Receiver.{pair_bytes, pairs_bytes};
ghost use Rattle.host.specs.Refusals.{get_names, first_fault, set_fault, delete_fault, get_fault, setting_fault, number_fault};
ghost use Rattle.host.specs.Requests.{numbers_bytes, set_payload, delete_payload, get_payload};
ghost use Rattle.host.specs.Payloads.{unless_fault, bytes_in};

use crate::fault::HostFault;
use crate::stage::Stage;
use arrayvec::ArrayVec;
use frame::MAX_PAYLOAD;
use item::{Selector, Size, is_well_formed, size_of, write_value};
use layer::Setting;
use request::{HEAD, KEY_BYTES, MAX_ENTRIES, PAIR_ROOM, write_pair};

// The version of a get.
const GET_VERSION: u8 = 0;

// A payload that has its head alone.
fn begun(head: [u8; HEAD]) -> ArrayVec<u8, MAX_PAYLOAD>
    requires { length head ≡ 4 }
    ensures value { result.items ≡ head }
    ensures len { array_vec_len result ≡ 4 }
{
    let mut bytes = ArrayVec::new();
    bytes.try_extend_from_slice(&head).unwrap();
    bytes
}

// Adds a pair.
#[tactic(auto, using(request::proofs::PairBytes::value_fits, request::proofs::PairBytes::pair_few, request::proofs::PairBytes::pair_taken))]
fn add_setting(bytes: &mut ArrayVec<u8, MAX_PAYLOAD>, setting: Setting) -> Result<(), HostFault>
    requires room { array_vec_len bytes.old + 12 ≤ 772 }
    ensures answer { result ≡ unless_fault (setting_fault setting) tt }
    ensures after { OnOk result (bytes.new.items ≡ bytes.old.items ++ pair_bytes setting) }
    ensures len { array_vec_len bytes.new ≤ array_vec_len bytes.old + 12 }
{
    let Setting { key, value } = setting;
    if !is_well_formed(key) {
        return Err(HostFault::IllFormedKey);
    }
    let size = size_of(key).ok_or(HostFault::IllFormedKey)?;
    if !size.fits(value) {
        return Err(HostFault::UnfitValue);
    }
    let mut pair = [0; PAIR_ROOM];
    let count = write_pair(&mut pair, setting).unwrap();
    bytes.try_extend_from_slice(&pair[..count]).unwrap();
    Ok(())
}

// Adds a key or selector.
#[tactic(auto, using(crate::proofs::Building::number_stands))]
fn add_number(bytes: &mut ArrayVec<u8, MAX_PAYLOAD>, number: u32) -> Result<(), HostFault>
    requires room { array_vec_len bytes.old + 4 ≤ 772 }
    ensures answer { result ≡ unless_fault (number_fault number) tt }
    ensures after { OnOk result (bytes.new.items ≡ bytes.old.items ++ bytes_of 4 number) }
    ensures len { array_vec_len bytes.new ≤ array_vec_len bytes.old + 4 }
{
    if let Selector::Key(key) = Selector::from(number)
        && !is_well_formed(key)
    {
        return Err(HostFault::IllFormedKey);
    }
    let mut four = [0; KEY_BYTES];
    write_value(&mut four, 0, Size::Four, number as u64).unwrap();
    bytes.try_extend_from_slice(&four).unwrap();
    Ok(())
}

// Adds keys and selectors behind a head.
#[tactic(auto, using(crate::proofs::Building::fault_past, crate::proofs::Building::fault_found, crate::proofs::Building::fault_end, crate::proofs::Building::numbers_past, crate::proofs::Building::numbers_end))]
fn add_numbers(bytes: &mut ArrayVec<u8, MAX_PAYLOAD>, numbers: &[u32]) -> Result<(), HostFault>
    requires few { length numbers.now ≤ 64 }
    requires head { array_vec_len bytes.old ≡ 4 }
    ensures answer { result ≡ unless_fault (first_fault number_fault numbers.now) tt }
    ensures after { OnOk result (bytes.new.items ≡ bytes.old.items ++ numbers_bytes numbers.now) }
{
    for number in numbers {
        add_number(bytes, *number)?;
    }
    Ok(())
}

// Adds pairs behind a head.
#[tactic(auto, using(crate::proofs::Building::fault_past, crate::proofs::Building::fault_found, crate::proofs::Building::fault_end, crate::proofs::Building::pairs_past, crate::proofs::Building::pairs_end))]
fn add_settings(
    bytes: &mut ArrayVec<u8, MAX_PAYLOAD>,
    settings: &[Setting],
) -> Result<(), HostFault>
    requires few { length settings.now ≤ 64 }
    requires head { array_vec_len bytes.old ≡ 4 }
    ensures answer { result ≡ unless_fault (first_fault setting_fault settings.now) tt }
    ensures after { OnOk result (bytes.new.items ≡ bytes.old.items ++ pairs_bytes settings.now) }
{
    for setting in settings {
        add_setting(bytes, *setting)?;
    }
    Ok(())
}

// The payload of a set.
pub(crate) fn set_payload(
    stage: Stage,
    layers: u8,
    settings: &[Setting],
) -> Result<ArrayVec<u8, MAX_PAYLOAD>, HostFault>
    ensures { bytes_in result ≡ unless_fault (set_fault layers settings.now) (set_payload stage layers settings.now) }
{
    // RAM is bit 0, BBR 1, Flash 2
    if !(1..=7).contains(&layers) {
        return Err(HostFault::WrongLayers);
    }
    if settings.len() > MAX_ENTRIES {
        return Err(HostFault::TooManyEntries);
    }
    let mut bytes = begun([stage.version(), layers, stage.action(), 0]);
    add_settings(&mut bytes, settings)?;
    Ok(bytes)
}

// The payload of a delete.
pub(crate) fn delete_payload(
    stage: Stage,
    layers: u8,
    numbers: &[u32],
) -> Result<ArrayVec<u8, MAX_PAYLOAD>, HostFault>
    ensures { bytes_in result ≡ unless_fault (delete_fault layers numbers.now) (delete_payload stage layers numbers.now) }
{
    // BBR, Flash, or both
    if !matches!(layers, 2 | 4 | 6) {
        return Err(HostFault::WrongLayers);
    }
    if numbers.len() > MAX_ENTRIES {
        return Err(HostFault::TooManyEntries);
    }
    let mut bytes = begun([stage.version(), layers, stage.action(), 0]);
    add_numbers(&mut bytes, numbers)?;
    Ok(bytes)
}

// Whether it is one layer's number: RAM, BBR, Flash, or the defaults.
fn is_layer(layer: u8) -> bool
    ensures { result ≡ get_names layer }
{
    matches!(layer, 0..=2 | 7)
}

// The head of a get.
#[tactic(auto, unfolding(item::specs::Values::bytes_of))]
fn get_head(layer: u8, position: u16) -> [u8; HEAD]
    ensures value { result ≡ 0 ∷ layer ∷ bytes_of 2 position }
    ensures len { length result ≡ 4 }
{
    let [low, high] = position.to_le_bytes();
    [GET_VERSION, layer, low, high]
}

// The payload of a get.
pub(crate) fn get_payload(
    layer: u8,
    position: u16,
    numbers: &[u32],
) -> Result<ArrayVec<u8, MAX_PAYLOAD>, HostFault>
    ensures { bytes_in result ≡ unless_fault (get_fault layer numbers.now) (get_payload layer position numbers.now) }
{
    if !is_layer(layer) {
        return Err(HostFault::WrongLayers);
    }
    if numbers.len() > MAX_ENTRIES {
        return Err(HostFault::TooManyEntries);
    }
    let mut bytes = begun(get_head(layer, position));
    add_numbers(&mut bytes, numbers)?;
    Ok(bytes)
}
