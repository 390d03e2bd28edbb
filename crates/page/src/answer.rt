// The page's frame, written into a caller's buffer.
ghost use Rattle.std.specs.Prelude.{◌≡◌, ◌≤◌, length, Some};
ghost use Rattle.catalogue.specs.Owned.{entries_of};
ghost use Rattle.frame.specs.Written.{in_front};
ghost use Rattle.reference.specs.Requests.{ok_map};
ghost use Rattle.page.specs.Drafts.{draft_frame};
ghost use Rattle.page.specs.Pages.{page_bytes, page_answer, page_out};
ghost use Rattle.page.specs.declared.answer.PageFault.TheVariants.{Refused};
ghost use Rattle.page.specs.Texts.{page_fault_text};

use crate::draft::Draft;
use crate::entry::number_in;
use catalogue::Catalogue;
use frame::{Frame, MAX_FRAME, write_frame};
use layer::Layer;
use reference::Refusal;
use request::{CONFIGURATION_CLASS, KEY_BYTES, VALGET};
use std::error::Error;
use std::fmt;

// Why no page was written.
#[derive(Clone, Copy, Debug)]
pub enum PageFault {
    Refused(Refusal),
    // the buffer has not room for every frame
    NoRoom,
}

impl From<Refusal> for PageFault {
    ghost from_gives = { λ refusal fault. fault ≡ Refused refusal };

    fn from(refusal: Refusal) -> PageFault {
        PageFault::Refused(refusal)
    }
}

impl fmt::Display for PageFault {
    ghost output = { λ fault. Some (page_fault_text fault) };

    fn fmt<W: fmt::Write>(&self, f: &mut fmt::Formatter<W>) -> fmt::Result {
        match self {
            PageFault::Refused(fault) => write!(f, "{fault}"),
            PageFault::NoRoom => f.write_str("the buffer has not room for every frame"),
        }
    }
}

impl Error for PageFault {}

// The whole page that a request asks for.
fn drafted<L: Layer>(catalogue: &Catalogue, layer: &L, payload: &[u8]) -> Result<Draft, Refusal>
    ensures { ok_map draft_frame result ≡ page_bytes (entries_of catalogue.now) (L.Layer.settings layer.now) payload.now }
{
    let [_version, layers, low, high, entries @ ..] = payload else {
        return Err(Refusal::ShortPayload);
    };
    let mut draft = Draft::new(*layers, [*low, *high]);
    for (before, entry) in entries.chunks(KEY_BYTES).enumerate() {
        let number = number_in(catalogue, entry, before)?;
        draft.add_named(catalogue.entries(), layer, number);
    }
    Ok(draft)
}

// Writes a page's frame into a buffer that has room for every frame; answers how many bytes it has.
fn put_frame(out: &mut [u8], draft: &Draft) -> usize
    requires { 780 ≤ length out.old }
    ensures value { result ≡ length (draft_frame draft.now) }
    ensures out { out.new ≡ in_front (draft_frame draft.now) out.old }
{
    let frame = Frame {
        class: CONFIGURATION_CLASS,
        id: VALGET,
        payload: draft.payload(),
    };
    write_frame(out, &frame).unwrap()
}

// Writes the reply to a get at the start of the buffer: what the layer holds under the keys that the payload names, of which the position's
// first are skipped and at most 64 are listed. Answers how many bytes its frame has; a refusal leaves the buffer as it was.
pub fn write_page<L: Layer>(
    catalogue: &Catalogue,
    layer: &L,
    payload: &[u8],
    out: &mut [u8],
) -> Result<usize, PageFault>
    ensures answer { result ≡ page_answer (length out.old) (page_bytes (entries_of catalogue.now) (L.Layer.settings layer.now) payload.now) }
    ensures out { out.new ≡ page_out (length out.old) (page_bytes (entries_of catalogue.now) (L.Layer.settings layer.now) payload.now) out.old }
{
    if out.len() < MAX_FRAME {
        return Err(PageFault::NoRoom);
    }
    let draft = drafted(catalogue, layer, payload)?;
    Ok(put_frame(out, &draft))
}
