// Beginning a transaction, adding to it, and ending it by applying or abandoning it.
ghost use Rattle.std.specs.Prelude.{◌≡◌, true, length, take, is_ok, IfOk, if◌then◌else◌};
ghost use Rattle.frame.specs.Frames.{frame_bytes};
ghost use Rattle.frame.specs.Scanning.{HeardAs};
ghost use Rattle.frame.specs.Written.{in_front};
ghost use Rattle.reference.specs.Requests.{valset, valdel};
ghost use Rattle.host.specs.Heard.{SetHeard, DeleteHeard, EndHeard};
ghost use Rattle.host.specs.Refusals.{delete_names, set_fault, delete_fault, add_fault, setting_fault, number_fault};
ghost use Rattle.host.specs.Requests.{head, request, set_request, delete_request, written};
ghost use Rattle.host.specs.Begun.{begun_length};

use super::{DeleteTransaction, SetTransaction};
use crate::fault::HostFault;
use crate::sending::{send, send_delete, send_set};
use crate::stage::Stage;
use frame::{HEADER, TRAILER};
use layer::Setting;
use request::{HEAD, VALDEL, VALSET};

// How many bytes a frame has that has no data.
const END_FRAME: usize = HEADER + HEAD + TRAILER;

// A begun transaction, and how many bytes its first frame has.
pub struct Begun<T> {
    pub length: usize,
    pub transaction: T,
}

// A frame without data.
fn end_frame(id: u8, stage: Stage, layers: u8) -> [u8; END_FRAME]
    ensures value { result ≡ frame_bytes (request id (head stage layers)) }
    ensures heard { HeardAs (request id (head stage layers)) result }
{
    let mut out = [0; END_FRAME];
    send(&mut out, id, &[stage.version(), layers, stage.action(), 0]).unwrap();
    out
}

// The frame that ends a transaction of sets.
fn end_sets(stage: Stage, layers: u8) -> [u8; END_FRAME]
    ensures value { result ≡ frame_bytes (request valset (head stage layers)) }
    ensures heard { EndHeard valset stage layers result }
{
    end_frame(VALSET, stage, layers)
}

// The frame that ends a transaction of deletes.
fn end_deletes(stage: Stage, layers: u8) -> [u8; END_FRAME]
    requires { delete_names layers ≡ true }
    ensures value { result ≡ frame_bytes (request valdel (head stage layers)) }
    ensures heard { EndHeard valdel stage layers result }
{
    end_frame(VALDEL, stage, layers)
}

impl SetTransaction {
    // Begins a transaction of sets: writes its first frame at the start of the buffer. A refusal begins nothing and leaves the buffer as it was.
    pub fn begin(
        out: &mut [u8],
        layers: u8,
        settings: &[Setting],
    ) -> Result<Begun<SetTransaction>, HostFault>
        ensures answer { begun_length result ≡ written (set_fault layers settings.now) (set_request Stage.Begin layers settings.now) (length out.old) }
        ensures begun { IfOk result (λ b. b.transaction.layers ≡ layers) }
        ensures out { out.new ≡ (if is_ok result then in_front (frame_bytes (set_request Stage.Begin layers settings.now)) out.old else out.old) }
        ensures heard { IfOk result (λ b. SetHeard Stage.Begin layers settings.now (take b.length out.new)) }
    {
        let length = send_set(out, Stage::Begin, layers, settings)?;
        Ok(Begun {
            length,
            transaction: SetTransaction { layers },
        })
    }

    // Writes a frame that adds pairs; answers how many bytes it has. A refusal leaves buffer and transaction as they were.
    pub fn add(&mut self, out: &mut [u8], settings: &[Setting]) -> Result<usize, HostFault>
        ensures answer { result ≡ written (add_fault setting_fault settings.now) (set_request Stage.Add self.old.layers settings.now) (length out.old) }
        ensures same { self.new ≡ self.old }
        ensures out { out.new ≡ (if is_ok result then in_front (frame_bytes (set_request Stage.Add self.old.layers settings.now)) out.old else out.old) }
        ensures heard { IfOk result (λ n. SetHeard Stage.Add self.old.layers settings.now (take n out.new)) }
    {
        if settings.is_empty() {
            return Err(HostFault::NothingToAdd);
        }
        send_set(out, Stage::Add, self.layers, settings)
    }

    // Ends it: the frame that has the receiver apply what is queued.
    pub fn apply(self) -> [u8; END_FRAME]
        ensures value { result ≡ frame_bytes (request valset (head Stage.Apply self.layers)) }
        ensures heard { EndHeard valset Stage.Apply self.layers result }
    {
        let SetTransaction { layers } = self;
        end_sets(Stage::Apply, layers)
    }

    // Ends it: the frame that has the receiver forget what is queued.
    pub fn abandon(self) -> [u8; END_FRAME]
        ensures value { result ≡ frame_bytes (request valset (head Stage.Abandon self.layers)) }
        ensures heard { EndHeard valset Stage.Abandon self.layers result }
    {
        let SetTransaction { layers } = self;
        end_sets(Stage::Abandon, layers)
    }
}

impl DeleteTransaction {
    // Begins a transaction of deletes: writes its first frame at the start of the buffer. A refusal begins nothing and leaves the buffer as it was.
    pub fn begin(
        out: &mut [u8],
        layers: u8,
        numbers: &[u32],
    ) -> Result<Begun<DeleteTransaction>, HostFault>
        ensures answer { begun_length result ≡ written (delete_fault layers numbers.now) (delete_request Stage.Begin layers numbers.now) (length out.old) }
        ensures begun { IfOk result (λ b. b.transaction.layers ≡ layers) }
        ensures out { out.new ≡ (if is_ok result then in_front (frame_bytes (delete_request Stage.Begin layers numbers.now)) out.old else out.old) }
        ensures heard { IfOk result (λ b. DeleteHeard Stage.Begin layers numbers.now (take b.length out.new)) }
    {
        let length = send_delete(out, Stage::Begin, layers, numbers)?;
        Ok(Begun {
            length,
            transaction: DeleteTransaction { layers },
        })
    }

    // Writes a frame that adds keys and selectors; answers how many bytes it has. A refusal leaves buffer and transaction as they were.
    pub fn add(&mut self, out: &mut [u8], numbers: &[u32]) -> Result<usize, HostFault>
        ensures answer { result ≡ written (add_fault number_fault numbers.now) (delete_request Stage.Add self.old.layers numbers.now) (length out.old) }
        ensures same { self.new ≡ self.old }
        ensures out { out.new ≡ (if is_ok result then in_front (frame_bytes (delete_request Stage.Add self.old.layers numbers.now)) out.old else out.old) }
        ensures heard { IfOk result (λ n. DeleteHeard Stage.Add self.old.layers numbers.now (take n out.new)) }
    {
        if numbers.is_empty() {
            return Err(HostFault::NothingToAdd);
        }
        send_delete(out, Stage::Add, self.layers, numbers)
    }

    // Ends it: the frame that has the receiver apply what is queued.
    pub fn apply(self) -> [u8; END_FRAME]
        ensures value { result ≡ frame_bytes (request valdel (head Stage.Apply self.layers)) }
        ensures heard { EndHeard valdel Stage.Apply self.layers result }
    {
        let DeleteTransaction { layers } = self;
        end_deletes(Stage::Apply, layers)
    }

    // Ends it: the frame that has the receiver forget what is queued.
    pub fn abandon(self) -> [u8; END_FRAME]
        ensures value { result ≡ frame_bytes (request valdel (head Stage.Abandon self.layers)) }
        ensures heard { EndHeard valdel Stage.Abandon self.layers result }
    {
        let DeleteTransaction { layers } = self;
        end_deletes(Stage::Abandon, layers)
    }
}
