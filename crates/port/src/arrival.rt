// A message that arrives from a side.
ghost use Rattle.port.specs.Calls.{HearsOn};
ghost use Rattle.port.specs.Step.{stepped};
ghost use Rattle.laptop.specs.State.{memory_lent};
ghost use Rattle.laws.specs.Lent.{lent};

use crate::sides::{given_on, seen};
use crate::{Accepted, Port, Refused, Side};

// Whatever the other side awaits, it is a message of document 01 on its own side.
pub fn message(
    port: Port,
    side: Side,
    bytes: &[u8],
    svids: &mut [u16; 72],
    modes: &mut [u8; 72],
    identity: &mut [u32; 6],
    run: &mut [u32],
    held_svids: &mut [u16; 72],
    held_modes: &mut [u8; 72],
    held_identity: &mut [u32; 6],
    held_run: &mut [u32],
    entered: &mut [u8; 72],
) -> Result<Accepted, Refused>
    ensures { HearsOn side port bytes.now (memory_lent svids modes identity run held_svids held_modes held_identity held_run entered) (stepped result) }
{
    let heard = hearing::message(
        seen(side, port),
        bytes,
        svids,
        modes,
        identity,
        run,
        held_svids,
        held_modes,
        held_identity,
        held_run,
        entered,
    );
    given_on(side, port, heard)
}
