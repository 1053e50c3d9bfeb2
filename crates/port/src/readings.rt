// What is read of a side: the report of its entered modes, and its held catalogue as bytes.
ghost use Rattle.std.specs.Prelude.{◌≡◌, length};
ghost use Rattle.laptop.specs.Marks.{reported};
ghost use Rattle.catalogue.specs.Bytes.{bytes_in, held_catalogue, CatalogueWritten};
ghost use Rattle.port.specs.Sides.{own_of};

use crate::sides::seen;
use crate::{Port, Side};
use messages::Refusal;

// How many modes of the SVID are entered on the side, 0 if it is not held there.
pub fn report(port: Port, side: Side, svid: u16, held_svids: &[u16; 72], entered: &[u8; 72]) -> u32
    ensures { result ≡ reported (own_of side port).held held_svids.now entered.now svid }
{
    laptop::report(seen(side, port), svid, held_svids, entered)
}

// Writes the catalogue that the side holds, and gives how many bytes.
pub fn write_catalogue(
    port: Port,
    side: Side,
    held_svids: &[u16; 72],
    held_modes: &[u8; 72],
    held_identity: &[u32; 6],
    held_run: &[u32],
    out: &mut [u8],
) -> Result<u16, Refusal>
    ensures { CatalogueWritten
        (held_catalogue (own_of side port).held held_identity.now held_svids.now held_modes.now held_run.now)
        (length held_run.now) out.old (bytes_in result) out.new }
{
    catalogue::write_catalogue(
        seen(side, port),
        held_svids,
        held_modes,
        held_identity,
        held_run,
        out,
    )
}
