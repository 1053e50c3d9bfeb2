// A catalogue's bytes read back, and the stretch of one SVID.
ghost use Rattle.std.specs.Prelude.{◌≡◌, ◌+◌, ◌*◌, ◌≤◌};
ghost use Rattle.controller.specs.CatalogueReading.{with_offset, sizes_of, ReadCall, StretchCall};
ghost use Rattle.laws.specs.Lent.{lent};
ghost use Rattle.rebuilding.specs.Rebuilding.{Small};
ghost use Rattle.rebuilding.specs.Shown.{rebuilt_as};

use rebuilding::{Rebuilt, read_catalogue};
use stretches::find_stretch;

// The refusal number in the low eight bits, and the offset above them.
pub(crate) fn with_offset(number: u8, at: usize) -> u32
    requires { at ≤ 2402 }
    ensures { result ≡ with_offset number at }
{
    u32::from(number) + (at as u32) * 256
}

fn sizes_of(read: Rebuilt) -> [u16; 3]
    requires { Small (rebuilt_as (Ok read)) }
    ensures { result ≡ sizes_of (rebuilt_as (Ok read)) }
{
    [read.extent as u16, read.count as u16, read.modes as u16]
}

// Reads a catalogue; `sizes` are the numbers of identity objects, SVIDs and modes.
pub fn catalogue_read(
    bytes: &[u8],
    svids: &mut [u16; 72],
    modes: &mut [u8; 72],
    identity: &mut [u32; 6],
    run: &mut [u32],
    sizes: &mut [u16; 3],
) -> u32
    ensures { ReadCall bytes.now result svids modes identity run sizes }
{
    match read_catalogue(bytes, svids, modes, identity, run) {
        Ok(read) => {
            *sizes = sizes_of(read);
            with_offset(0, read.at)
        }
        Err(fault) => with_offset(u8::from(fault.refusal), fault.at),
    }
}

// Finds the mode records of an SVID; `length` is the number of their bytes.
pub fn catalogue_stretch(bytes: &[u8], svid: u16, length: &mut u16) -> u32
    ensures { StretchCall bytes.now svid result length }
{
    match find_stretch(bytes, svid) {
        Ok(place) => {
            *length = place.length as u16;
            with_offset(0, place.at)
        }
        Err(fault) => with_offset(u8::from(fault.refusal), fault.at),
    }
}
