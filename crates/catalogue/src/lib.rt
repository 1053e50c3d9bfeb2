#![tactic(auto)]

// The held catalogue as bytes. Document 01, "Catalogue bytes".
mod entries;
mod numbers;
mod parts;

ghost use Rattle.std.specs.Prelude.{◌≡◌, ◌≤◌, length};
ghost use Rattle.std.proofs.lemmas.List.Edits.{sets};
ghost use Rattle.messages.specs.Refusals.{number_in};
ghost use Rattle.catalogue.specs.Bytes.{catalogue_bytes, most_bytes, bytes_in, held_catalogue, size_refusal, CatalogueWritten};
ghost use Rattle.catalogue.specs.Parts.{catalogue_in_parts};

use laptop::{Laptop, RUN_WORDS};
use messages::{Refusal, first};
use numbers::{OBJECT_SIZE, put_number, put_words};
use parts::Parts;

// As SVID_KIND, a number that is written and met in one place.
const END_KIND: u64 = 0x00;

const LEAST_OBJECTS: usize = 3;

impl<'a> Parts<'a> {
    // How many bytes the catalogue takes.
    fn length(self) -> usize
        ensures { (result ≡ length (catalogue_bytes (catalogue_in_parts self.entry))) × (result ≤ most_bytes) }
    {
        self.objects.len() * 4 + self.entries_length() + 2
    }

    // The kind of an identity is the number of its objects.
    fn put(self, out: &mut [u8])
        requires { length (catalogue_bytes (catalogue_in_parts self)) ≤ length out.old }
        ensures { out.new ≡ sets out.old 0 (catalogue_bytes (catalogue_in_parts self.entry)) }
    {
        let first = put_number(out, 0, self.objects.len() as u64, 1);
        let second = put_words(out, first, self.objects, OBJECT_SIZE);
        let end = self.put_entries(out, second);
        put_number(out, end, END_KIND, 1);
    }
}

// Too few identity objects are no catalogue: 12, then 11 for a short buffer.
fn fitting(extent: usize, bytes: usize, room: usize) -> Result<(), Refusal>
    ensures { number_in result ≡ size_refusal extent bytes room }
{
    if extent < LEAST_OBJECTS {
        Err(Refusal::NotHeld)
    } else if room < bytes {
        Err(Refusal::TooShort)
    } else {
        Ok(())
    }
}

// Writes the held catalogue, and gives how many bytes: refused 11 for a short run, then 12, then 11 for a short buffer.
// Each array goes by itself, as C lends them; `Parts` holds them from here on.
pub fn write_catalogue(
    laptop: Laptop,
    held_svids: &[u16; 72],
    held_modes: &[u8; 72],
    held_identity: &[u32; 6],
    held_run: &[u32],
    out: &mut [u8],
) -> Result<u16, Refusal>
    ensures { CatalogueWritten
        (held_catalogue laptop.held held_identity.now held_svids.now held_modes.now held_run.now)
        (length held_run.now) out.old (bytes_in result) out.new }
{
    if held_run.len() < RUN_WORDS {
        return Err(Refusal::TooShort);
    }
    let size = laptop.held.ok_or(Refusal::NotHeld)?;
    let parts = Parts {
        objects: first(held_identity, usize::from(size.extent)),
        svids: first(held_svids, usize::from(size.count)),
        modes: held_modes,
        run: held_run,
    };
    let length = parts.length();
    fitting(parts.objects.len(), length, out.len())?;
    parts.put(out);
    Ok(length as u16)
}
