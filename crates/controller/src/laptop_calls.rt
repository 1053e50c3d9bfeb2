// The laptop's calls but those of its owner and its timers.
ghost use Rattle.std.specs.Prelude.{◌≡◌, replicate};
ghost use Rattle.laptop.specs.Marks.{reported};
ghost use Rattle.laptop.specs.State.{memory_lent};
ghost use Rattle.laptop.specs.Step.{stepped};
ghost use Rattle.port.specs.Sides.{own_of, fresh_port};
ghost use Rattle.controller.specs.LaptopCalls.{HeardOn, LaptopHears};
ghost use Rattle.controller.specs.Port.{side_from, port_from, port_numbers};
ghost use Rattle.laws.specs.Lent.{lent};

use crate::numbers::side_from;
use crate::port_state::port_from;
use crate::port_writing::write_port;
use crate::told::hand_over;
use port::{given_on, seen};

// A fresh laptop, on both sides.
pub fn laptop_fresh(
    state: &mut [u16; 22],
    partner_entered: &mut [u8; 72],
    cable_entered: &mut [u8; 72],
)
    ensures { (state.new ≡ port_numbers fresh_port) × (partner_entered.new ≡ replicate 72 0) × (cable_entered.new ≡ replicate 72 0) }
{
    write_port(&port::fresh(partner_entered, cable_entered), state);
}

// The port is read anew behind it, and does not lie on the stack meanwhile.
fn hear(
    state: &[u16; 22],
    side: u8,
    bytes: &[u8],
    svids: &mut [u16; 72],
    modes: &mut [u8; 72],
    identity: &mut [u32; 6],
    run: &mut [u32],
    held_svids: &mut [u16; 72],
    held_modes: &mut [u8; 72],
    held_identity: &mut [u32; 6],
    held_run: &mut [u32],
    entered: &mut [u8; 72],
) -> Result<laptop::Accepted, laptop::Refused>
    ensures { HeardOn (side_from side) bytes.now state.now
        (memory_lent svids modes identity run held_svids held_modes held_identity held_run entered) (stepped result) }
{
    hearing::message(
        seen(side_from(side), port_from(state)),
        bytes,
        svids,
        modes,
        identity,
        run,
        held_svids,
        held_modes,
        held_identity,
        held_run,
        entered,
    )
}

// A message from a side.
pub fn laptop_message(
    state: &mut [u16; 22],
    side: u8,
    bytes: &[u8],
    svids: &mut [u16; 72],
    modes: &mut [u8; 72],
    identity: &mut [u32; 6],
    run: &mut [u32],
    held_svids: &mut [u16; 72],
    held_modes: &mut [u8; 72],
    held_identity: &mut [u32; 6],
    held_run: &mut [u32],
    entered: &mut [u8; 72],
    handed: &mut [u32; 8],
) -> u8
    ensures { LaptopHears (side_from side) bytes.now result state
        (memory_lent svids modes identity run held_svids held_modes held_identity held_run entered) handed }
{
    let heard = hear(
        state,
        side,
        bytes,
        svids,
        modes,
        identity,
        run,
        held_svids,
        held_modes,
        held_identity,
        held_run,
        entered,
    );
    let given = given_on(side_from(side), port_from(state), heard);
    hand_over(given, state, handed)
}

// How many modes of the SVID are entered on a side.
pub fn laptop_report(
    state: &[u16; 22],
    side: u8,
    svid: u16,
    held_svids: &[u16; 72],
    entered: &[u8; 72],
) -> u32
    ensures { result ≡ reported (own_of (side_from side) (port_from state.now)).held held_svids.now entered.now svid }
{
    port::report(port_from(state), side_from(side), svid, held_svids, entered)
}
