// Judging a get: its reply is written into the buffer, from the layer that it names.
ghost use Rattle.std.specs.Prelude.{◌≡◌, length};
ghost use Rattle.catalogue.specs.Owned.{entries_of};
ghost use Rattle.page.specs.Pages.{page_bytes, in_front_if_made};
ghost use Rattle.reference.specs.Requests.{ok_map};
ghost use Rattle.receiver.specs.State.{items_of};
ghost use Rattle.reference.specs.Receiver.{layer_of};
ghost use Rattle.receiver.specs.Plans.{page_over, gotten};

use super::Receiver;
use super::handling::ANSWER_ROOM;
use super::meaning::Meaning;
use catalogue::Catalogue;
use layer::{Layer, Store};
use page::{PageFault, write_page};
use reference::Refusal;
use request::byte_at;
use rule::Rule;

// The reply from one layer, into a buffer that has room for it.
fn reply_from<L: Layer>(
    catalogue: &Catalogue,
    layer: &L,
    payload: &[u8],
    out: &mut [u8; ANSWER_ROOM],
) -> Result<usize, Refusal>
    ensures value { result ≡ ok_map length (page_bytes (entries_of catalogue.now) (L.Layer.settings layer.now) payload.now) }
    ensures out { out.new ≡ in_front_if_made (page_bytes (entries_of catalogue.now) (L.Layer.settings layer.now) payload.now) out.old }
{
    write_page(catalogue, layer, payload, out).map_err(|fault| match fault {
        PageFault::Refused(refusal) => refusal,
        PageFault::NoRoom => unreachable!(),
    })
}

impl<B: Store, F: Store, R: Rule> Receiver<B, F, R> {
    // The reply from the layer with this number; none where there is no such layer, or a Flash that is not usable.
    fn reply_from_layer(
        &self,
        layer: u8,
        payload: &[u8],
        out: &mut [u8; ANSWER_ROOM],
    ) -> Result<usize, Refusal>
        ensures value { result ≡ ok_map length (page_over (items_of self.now) (layer_of (items_of self.now) (⟦<Self as Meaning>⟧.state self.now) layer) payload.now) }
        ensures out { out.new ≡ in_front_if_made (page_over (items_of self.now) (layer_of (items_of self.now) (⟦<Self as Meaning>⟧.state self.now) layer) payload.now) out.old }
    {
        let layer = self.layer(layer).ok_or(Refusal::WrongLayer)?;
        reply_from(&self.layers.lower.catalogue, &layer, payload, out)
    }

    // A get. The length of its reply, which stands at the start of the buffer.
    pub(crate) fn judge_get(
        &self,
        payload: &[u8],
        out: &mut [u8; ANSWER_ROOM],
    ) -> Result<usize, Refusal>
        ensures value { result ≡ ok_map length (gotten (items_of self.now) (⟦<Self as Meaning>⟧.state self.now) payload.now) }
        ensures out { out.new ≡ in_front_if_made (gotten (items_of self.now) (⟦<Self as Meaning>⟧.state self.now) payload.now) out.old }
    {
        if byte_at(payload, 0) > 0 {
            return Err(Refusal::UnknownVersion);
        }
        self.reply_from_layer(byte_at(payload, 1), payload, out)
    }
}
