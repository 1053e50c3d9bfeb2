// A damaged catalogue's bytes mended. Document 02, R-6.
ghost use Rattle.std.specs.Prelude.{◌≡◌};
ghost use Rattle.controller.specs.CatalogueMending.{kept_numbers, KeptFits, MendCall};
ghost use Rattle.laws.specs.Lent.{lent};

use crate::catalogue_reading::with_offset;
use mending::{Kept, Mended, mend_catalogue};

fn numbers_of(found: Kept) -> [u16; 3]
    requires { KeptFits found }
    ensures { result ≡ kept_numbers found }
{
    [found.svids as u16, found.modes as u16, found.length as u16]
}

// Mends a catalogue's bytes into `out`; `kept` are the numbers of SVIDs and modes in what comes out, and of its bytes.
pub fn catalogue_mend(bytes: &[u8], out: &mut [u8], kept: &mut [u16; 3]) -> u32
    ensures { MendCall bytes.now result out kept }
{
    match mend_catalogue(bytes, out) {
        Ok(Mended::Sound(found)) => {
            *kept = numbers_of(found);
            0
        }
        Ok(Mended::Partial(fault, found)) => {
            *kept = numbers_of(found);
            with_offset(u8::from(fault.refusal), fault.at)
        }
        Err(refusal) => with_offset(u8::from(refusal), 0),
    }
}
