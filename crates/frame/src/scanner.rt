// Scanning: which frames a run of bytes holds.
ghost use Rattle.std.specs.Prelude.{◌≡◌, ℕ, ◌+◌, ◌<◌, ◌≤◌, length, take, drop, IfOk, vec_len};
ghost use Rattle.frame.specs.declared.sums.CheckBytes.{CheckBytes};
ghost use Rattle.frame.specs.Checksum.{no_sums, check_bytes, running_sums};
ghost use Rattle.frame.specs.Frames.{max_payload, standing, at_check_bytes, message_at};
ghost use Rattle.frame.specs.Scanning.{finding, scanned, Promised};
ghost use Rattle.frame.specs.Meaning.{Headed, standing_of, passed, finding_of, scanned_of};

use crate::format::{Frame, HEADER, MAX_PAYLOAD, PREAMBLE};
use crate::sums::{CheckBytes, check_bytes, running_sums};
use std::alloc::{AllocError, Global};

// Why no frame is heard at the first byte of a run of bytes.
#[derive(Clone, Copy, PartialEq, Eq, Debug)]
pub enum Unheard {
    // no frame, whatever may follow
    Noise,
    // the bytes do not yet decide
    Undecided,
}

// The length of the payload, by the bytes before it. Each byte is judged as soon as it is there.
#[tactic(auto, using(crate::proofs::Frames::by_header))]
pub(crate) fn payload_size(bytes: &[u8]) -> Result<usize, Unheard>
    ensures { Headed bytes.now result }
{
    if bytes.is_empty() {
        return Err(Unheard::Undecided);
    }
    if bytes[0] != PREAMBLE[0] {
        return Err(Unheard::Noise);
    }
    if bytes.len() < 2 {
        return Err(Unheard::Undecided);
    }
    if bytes[1] != PREAMBLE[1] {
        return Err(Unheard::Noise);
    }
    if bytes.len() < HEADER {
        return Err(Unheard::Undecided);
    }
    let count = u16::from_le_bytes([bytes[4], bytes[5]]) as usize;
    if count > MAX_PAYLOAD {
        return Err(Unheard::Noise);
    }
    Ok(count)
}

// What stands there where the first check byte is there too and the check bytes should be `sums`.
#[tactic(auto, using(crate::proofs::Frames::by_check_bytes))]
pub(crate) fn closed(bytes: &[u8], count: usize, sums: CheckBytes) -> Result<Frame<'_>, Unheard>
    requires { 6 + count < length bytes.now }
    ensures { standing_of result ≡ at_check_bytes sums (message_at count bytes.now) (drop (6 + count) bytes.now) }
{
    let end = HEADER + count;
    if bytes[end] != sums.a {
        return Err(Unheard::Noise);
    }
    if bytes.len() == end + 1 {
        return Err(Unheard::Undecided);
    }
    if bytes[end + 1] != sums.b {
        return Err(Unheard::Noise);
    }
    Ok(Frame {
        class: bytes[2],
        id: bytes[3],
        payload: &bytes[HEADER..end],
    })
}

// What stands at the first of the bytes, where `sums` tells the check bytes of a frame there whose payload has so many bytes.
#[tactic(auto, using(crate::proofs::Frames::by_start))]
fn start_by<F: FnOnce(usize) -> CheckBytes>(bytes: &[u8], sums: F) -> Result<Frame<'_>, Unheard>
    requires asked { (n : ℕ) → n ≤ max_payload → 6 + n < length bytes.now → F.pre sums n }
    requires told { (n : ℕ) (s : CheckBytes) → n ≤ max_payload → 6 + n < length bytes.now → F.post sums n s → s ≡ check_bytes (take (4 + n) (drop 2 bytes.now)) }
    ensures value { standing_of result ≡ standing bytes.now }
    ensures fits { passed result ≤ length bytes.now }
{
    let count = payload_size(bytes)?;
    if bytes.len() <= HEADER + count {
        return Err(Unheard::Undecided);
    }
    closed(bytes, count, sums(count))
}

// The frame that stands at the first of the bytes.
pub fn start_of(bytes: &[u8]) -> Result<Frame<'_>, Unheard>
    ensures value { standing_of result ≡ standing bytes.now }
    ensures fits { passed result ≤ length bytes.now }
{
    start_by(bytes, |count| check_bytes(&bytes[2..HEADER + count]))
}

// The bytes from a place on.
pub(crate) fn from(bytes: &[u8], place: usize) -> &[u8]
    requires { place ≤ length bytes.now }
    ensures value { result.now ≡ drop place bytes.now }
    ensures len { place + length result.now ≡ length bytes.now }
{
    &bytes[place..]
}

// The first frame that is heard, if there is one: the bytes of noise before it, and the bytes behind it.
// Where there is none, `rest` is what is still undecided.
#[derive(Clone, Copy, PartialEq, Eq, Debug)]
pub struct Found<'a> {
    pub noise: usize,
    pub frame: Option<Frame<'a>>,
    pub rest: &'a [u8],
}

// Noise up to the first frame heard or undecided place, and that frame.
#[tactic(auto, using(crate::proofs::Scanning::by_search))]
pub fn find(bytes: &[u8]) -> Found<'_>
    ensures { finding_of result ≡ finding bytes.now }
{
    for noise in 0..bytes.len() {
        match start_of(from(bytes, noise)) {
            Err(Unheard::Noise) => {}
            Err(Unheard::Undecided) => return nothing_heard(bytes, noise),
            Ok(frame) => {
                return Found {
                    noise,
                    frame: Some(frame),
                    rest: from(bytes, noise + frame.size()),
                };
            }
        }
    }
    nothing_heard(bytes, bytes.len())
}

// No frame is heard, and all bytes behind the noise are undecided.
pub(crate) fn nothing_heard(bytes: &[u8], noise: usize) -> Found<'_>
    requires { noise ≤ length bytes.now }
    ensures { finding_of result ≡ record { skipped = noise; message = None; rest = drop noise bytes.now } }
{
    Found {
        noise,
        frame: None,
        rest: from(bytes, noise),
    }
}

// A heard frame, and the place of its first byte.
#[derive(Clone, Copy, PartialEq, Eq, Debug)]
pub struct Heard<'a> {
    pub place: usize,
    pub frame: Frame<'a>,
}

// What a run of bytes holds: the frames heard, in order; how many bytes were noise; the undecided bytes at the end, and their place.
#[derive(Drop)]
pub struct Listing<'a> {
    pub frames: Vec<Heard<'a>>,
    pub noise: usize,
    pub rest: &'a [u8],
    pub rest_place: usize,
}

// Bytes, and the sums behind each of them. With these the check bytes of any part cost two look-ups.
#[derive(Drop)]
struct Running<'a> {
    bytes: &'a [u8],
    sums: Vec<CheckBytes>,
    ghost summed: { sums.items ≡ running_sums no_sums bytes.now },
    ghost len: { vec_len sums ≡ length bytes.now },
}

impl<'a> Running<'a> {
    // The check bytes of the frame at a place whose payload has so many bytes.
    fn check_bytes_at(&self, place: usize, count: usize) -> CheckBytes
        requires few { count ≤ max_payload }
        requires within { place + 6 + count < length self.now.bytes.now }
        ensures { result ≡ check_bytes (take (4 + count) (drop 2 (drop place self.now.bytes.now))) }
    {
        // summed are class, ID, two bytes of length and the payload, behind the preamble
        let summed = 4 + count;
        let before = self.sums[place + 1];
        let behind = self.sums[place + 1 + summed];
        before.up_to(behind, summed)
    }

    // What stands at a place.
    fn start_at(&self, place: usize) -> Result<Frame<'a>, Unheard>
        requires { place ≤ length self.now.bytes.now }
        ensures value { standing_of result ≡ standing (drop place self.now.bytes.now) }
        ensures fits { place + passed result ≤ length self.now.bytes.now }
    {
        let sums = |count|
            requires { (count ≤ max_payload) × (place + 6 + count < length self.now.bytes.now) }
            ensures { result ≡ check_bytes (take (4 + count) (drop 2 (drop place self.entry.now.bytes.now))) }
        { self.check_bytes_at(place, count) };
        start_by(from(self.bytes, place), sums)
    }
}

// The frames that the bytes hold.
pub fn scan(heap: Global, bytes: &[u8]) -> Result<Listing<'_>, AllocError>
    ensures value { IfOk result (λ l. scanned_of l ≡ scanned bytes.now) }
    ensures promised { IfOk result (λ l. Promised bytes.now (scanned_of l)) }
{
    let sums = running_sums(heap, bytes)?;
    let summed = Running { bytes, sums };
    let mut frames = Vec::new(heap);
    let mut noise = 0usize;
    let mut place = 0usize;
    // kept: a heard frame is passed over whole, so the places go up by steps of different size; an iterator of places would carry the frames and
    // the noise in its closure
    'places: loop {
        match summed.start_at(place) {
            Err(Unheard::Noise) => {
                noise += 1;
                place += 1;
            }
            Err(Unheard::Undecided) => {
                return Ok(Listing {
                    frames,
                    noise,
                    rest: from(bytes, place),
                    rest_place: place,
                });
            }
            Ok(frame) => {
                frames.push(Heard { place, frame })?;
                place += frame.size();
            }
        }
    }
}
