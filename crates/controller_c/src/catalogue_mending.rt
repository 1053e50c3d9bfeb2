// A damaged catalogue's bytes mended. Document 02, R-6.
ghost use Rattle.std.specs.Prelude.{◌≡◌};
ghost use Rattle.controller.specs.CatalogueMending.{MendCall};

// Mends a catalogue's bytes into `out`; `kept` are the numbers of SVIDs and modes in what comes out, and of its bytes.
#[unsafe(no_mangle)]
pub extern "C" fn catalogue_mend(bytes: &[u8], out: &mut [u8], kept: &mut [u16; 3]) -> u32
    ensures { MendCall bytes.now result out kept }
{
    controller::catalogue_mend(bytes, out, kept)
}
