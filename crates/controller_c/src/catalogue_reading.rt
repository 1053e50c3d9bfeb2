// A catalogue's bytes read back, and the stretch of one SVID.
ghost use Rattle.std.specs.Prelude.{◌≡◌, ◌+◌, ◌*◌, ◌≤◌};
ghost use Rattle.controller.specs.CatalogueReading.{ReadCall, StretchCall};

// Reads a catalogue; `sizes` are the numbers of identity objects, SVIDs and modes.
#[unsafe(no_mangle)]
pub extern "C" fn catalogue_read(
    bytes: &[u8],
    svids: &mut [u16; 72],
    modes: &mut [u8; 72],
    identity: &mut [u32; 6],
    run: &mut [u32],
    sizes: &mut [u16; 3],
) -> u32
    ensures { ReadCall bytes.now result svids modes identity run sizes }
{
    controller::catalogue_read(bytes, svids, modes, identity, run, sizes)
}

// Finds the mode records of an SVID; `length` is the number of their bytes.
#[unsafe(no_mangle)]
pub extern "C" fn catalogue_stretch(bytes: &[u8], svid: u16, length: &mut u16) -> u32
    ensures { StretchCall bytes.now svid result length }
{
    controller::catalogue_stretch(bytes, svid, length)
}
