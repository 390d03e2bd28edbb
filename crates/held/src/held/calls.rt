// Taking, lending and dropping held bytes.
ghost use Rattle.std.specs.Prelude.{◌≡◌, ◌+◌, ◌-◌, ◌≤◌, min, [], ◌++◌, length, take, drop};
ghost use Rattle.held.specs.Meaning.{bytes_held};

use super::Held;
use crate::sums::{sum_up, sums_before};
use frame::{CheckBytes, Summed};

// The most bytes that are held, and how many there is room for in the array.
const MOST: usize = 780;

const ROOM: usize = 2 * MOST;

impl Held {
    // Nothing is held.
    pub fn new() -> Held
        ensures { bytes_held result ≡ [] }
    {
        Held {
            bytes: [0; ROOM],
            sums: [0; ROOM + 2],
            start: 0,
            end: 0,
        }
    }

    // The held bytes.
    pub fn as_slice(&self) -> &[u8]
        ensures value { result.now ≡ bytes_held self.now }
        ensures few { length result.now ≤ 780 }
    {
        &self.bytes[self.start..self.end]
    }

    // Makes room for so many bytes behind those held.
    fn make_room(&mut self, count: usize)
        requires { count + length (bytes_held self.old) ≤ 780 }
        ensures held { bytes_held self.new ≡ bytes_held self.old }
        ensures room { self.new.end + count ≤ 1560 }
        ensures stays { self.old.end + count ≤ 1560 → self.new.start ≡ self.old.start }
    {
        if self.end + count > ROOM {
            self.bytes.copy_within(self.start..self.end, 0);
            self.sums.copy_within(self.start..self.end + 2, 0);
            self.end -= self.start;
            self.start = 0;
        }
    }

    // How many are held.
    fn count(&self) -> usize
        ensures value { result ≡ length (bytes_held self.now) }
        ensures few { result ≤ 780 }
    {
        self.end - self.start
    }

    // Writes bytes behind those held, where there is room, and sums them up.
    #[tactic(auto, using(crate::proofs::Shift::written_behind))]
    fn write_behind(&mut self, bytes: &[u8])
        requires room { self.old.end + length bytes.now ≤ 1560 }
        requires few { length (bytes_held self.old) + length bytes.now ≤ 780 }
        ensures after { bytes_held self.new ≡ bytes_held self.old ++ bytes.now }
        ensures stays { self.new.start ≡ self.old.start }
    {
        let end = self.end;
        let next = end + bytes.len();
        self.bytes[end..next].copy_from_slice(bytes);
        sum_up(&self.bytes, &mut self.sums, end, next);
        self.end = next;
    }

    // Moves bytes from the front of a piece until it ends or 780 are held; answers how many.
    pub fn append(&mut self, piece: &[u8]) -> usize
        ensures count { result ≡ min (length piece.now) (780 - length (bytes_held self.old)) }
        ensures after { bytes_held self.new ≡ bytes_held self.old ++ take result piece.now }
        ensures stays { self.old.end + result ≤ 1560 → self.new.start ≡ self.old.start }
    {
        let room = MOST - self.count();
        let count = piece.len().min(room);
        self.make_room(count);
        self.write_behind(&piece[0..count]);
        count
    }

    // Drops so many bytes from the front, or all where there are fewer. No byte is moved.
    #[tactic(auto, using(crate::proofs::Shift::skip_some))]
    pub fn skip(&mut self, count: usize)
        ensures after { bytes_held self.new ≡ drop count (bytes_held self.old) }
        ensures stays { self.new.bytes ≡ self.old.bytes }
    {
        let held = self.count();
        if count < held {
            self.start += count;
        } else {
            self.start = 0;
            self.end = 0;
        }
    }
}

impl Summed for Held {
    ghost bytes = { bytes_held };

    fn as_slice(&self) -> &[u8] {
        Held::as_slice(self)
    }

    #[tactic(auto, using(crate::proofs::Running::part_sums))]
    fn check_bytes_at(&self, place: usize, count: usize) -> CheckBytes {
        let first = self.start + place + 2;
        let count = 4 + count;
        let end = sums_before(&self.sums, first + count);
        sums_before(&self.sums, first).up_to(end, count)
    }
}
