// The owner's calls, each for a side.
ghost use Rattle.std.specs.Prelude.{length};
ghost use Rattle.owner.specs.Owner.{decide_next, decide_start_over, decide_drop, decide_enter, decide_exit};
ghost use Rattle.controller.specs.LaptopCalls.{LaptopSends};
ghost use Rattle.controller.specs.Port.{side_from};
ghost use Rattle.laws.specs.Lent.{lent};

use crate::numbers::side_from;
use crate::port_state::port_from;
use crate::told::{hand_over, hand_over_here};

pub fn laptop_next(
    state: &mut [u16; 22],
    side: u8,
    svids: &[u16; 72],
    entered: &[u8; 72],
    run: &[u32],
    held_run: &[u32],
    out: &mut [u8],
    handed: &mut [u32; 8],
) -> u8
    ensures { LaptopSends (side_from side)
        (λ l. decide_next l svids.now entered.now (length run.now) (length held_run.now))
        (length run.now) (length held_run.now) result state out handed }
{
    let given = port::next(
        port_from(state),
        side_from(side),
        svids,
        entered,
        run,
        held_run,
        out,
    );
    hand_over_here(given, state, handed)
}

pub fn laptop_start_over(
    state: &mut [u16; 22],
    side: u8,
    entered: &[u8; 72],
    run: &[u32],
    held_run: &[u32],
    out: &mut [u8],
    handed: &mut [u32; 8],
) -> u8
    ensures { LaptopSends (side_from side)
        (λ l. decide_start_over l entered.now (length run.now) (length held_run.now))
        (length run.now) (length held_run.now) result state out handed }
{
    let given = port::start_over(
        port_from(state),
        side_from(side),
        entered,
        run,
        held_run,
        out,
    );
    hand_over(given, state, handed)
}

pub fn laptop_drop(
    state: &mut [u16; 22],
    side: u8,
    run: &[u32],
    held_run: &[u32],
    out: &mut [u8],
    handed: &mut [u32; 8],
) -> u8
    ensures { LaptopSends (side_from side)
        (λ l. decide_drop l (length run.now) (length held_run.now))
        (length run.now) (length held_run.now) result state out handed }
{
    let given = port::drop(port_from(state), side_from(side), run, held_run, out);
    hand_over(given, state, handed)
}

pub fn laptop_enter(
    state: &mut [u16; 22],
    side: u8,
    svid: u16,
    position: u8,
    held_svids: &[u16; 72],
    held_modes: &[u8; 72],
    entered: &[u8; 72],
    run: &[u32],
    held_run: &[u32],
    out: &mut [u8],
    handed: &mut [u32; 8],
) -> u8
    ensures { LaptopSends (side_from side)
        (λ l. decide_enter l held_svids.now held_modes.now entered.now (length run.now) (length held_run.now) svid position)
        (length run.now) (length held_run.now) result state out handed }
{
    let given = port::enter(
        port_from(state),
        side_from(side),
        svid,
        position,
        held_svids,
        held_modes,
        entered,
        run,
        held_run,
        out,
    );
    hand_over(given, state, handed)
}

pub fn laptop_exit(
    state: &mut [u16; 22],
    side: u8,
    svid: u16,
    position: u8,
    held_svids: &[u16; 72],
    held_modes: &[u8; 72],
    entered: &[u8; 72],
    run: &[u32],
    held_run: &[u32],
    out: &mut [u8],
    handed: &mut [u32; 8],
) -> u8
    ensures { LaptopSends (side_from side)
        (λ l. decide_exit l held_svids.now held_modes.now entered.now (length run.now) (length held_run.now) svid position)
        (length run.now) (length held_run.now) result state out handed }
{
    let given = port::exit(
        port_from(state),
        side_from(side),
        svid,
        position,
        held_svids,
        held_modes,
        entered,
        run,
        held_run,
        out,
    );
    hand_over(given, state, handed)
}
