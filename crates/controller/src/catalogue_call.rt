// The catalogue that a side holds, as bytes.
ghost use Rattle.catalogue.specs.Bytes.{held_catalogue};
ghost use Rattle.controller.specs.CatalogueCall.{CatalogueCall};
ghost use Rattle.controller.specs.Port.{side_from, port_from};
ghost use Rattle.laws.specs.Lent.{lent};
ghost use Rattle.port.specs.Sides.{own_of};

use crate::numbers::side_from;
use crate::port_state::port_from;

// Writes the catalogue that the side holds; `length` is the number of bytes written.
pub fn catalogue_write(
    state: &[u16; 22],
    side: u8,
    held_svids: &[u16; 72],
    held_modes: &[u8; 72],
    held_identity: &[u32; 6],
    held_run: &[u32],
    out: &mut [u8],
    length: &mut u16,
) -> u8
    ensures { CatalogueCall
        (held_catalogue (own_of (side_from side) (port_from state.now)).held held_identity.now held_svids.now held_modes.now held_run.now)
        held_run.now result out length }
{
    let written = port::write_catalogue(
        port_from(state),
        side_from(side),
        held_svids,
        held_modes,
        held_identity,
        held_run,
        out,
    );
    match written {
        Ok(bytes) => {
            *length = bytes;
            0
        }
        Err(refusal) => u8::from(refusal),
    }
}
