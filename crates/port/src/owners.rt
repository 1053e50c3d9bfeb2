// The owner's calls for a side: refused 11 for that side's short run, then 7 while either side's answer is awaited, else those of document 01 on that side.
ghost use Rattle.std.specs.Prelude.{◌≡◌, length};
ghost use Rattle.laws.specs.Lent.{lent};
ghost use Rattle.messages.specs.Refusals.{number_in};
ghost use Rattle.owner.specs.Owner.{decide_next, decide_start_over, decide_drop, decide_enter, decide_exit};
ghost use Rattle.port.specs.Calls.{owners_refusal, OwnersLaptop, Owners};
ghost use Rattle.port.specs.Step.{stepped};

use crate::sides::{given_on, seen};
use crate::{Accepted, Port, Refused, Side};
use laptop::{Laptop, short_runs};
use messages::Refusal;

// No `owner_check`: what either side awaits counts, of a Port.
fn owners_refusal(port: Port, run: &[u32], held_run: &[u32]) -> Result<(), Refusal>
    ensures { number_in result ≡ owners_refusal port (length run.now) (length held_run.now) }
{
    if short_runs(run, held_run) {
        return Err(Refusal::TooShort);
    }
    match port.wait {
        Some(_) => Err(Refusal::Waiting),
        None => Ok(()),
    }
}

// The laptop of which the owner asks something; else why it may not, and nothing changes, on either side.
#[inline(always)]
fn owners_laptop(port: Port, side: Side, run: &[u32], held_run: &[u32]) -> Result<Laptop, Refused>
    ensures { OwnersLaptop side port (length run.now) (length held_run.now) result }
{
    match owners_refusal(port, run, held_run) {
        Ok(()) => Ok(seen(side, port)),
        Err(refusal) => Err(Refused {
            refusal,
            side,
            port,
        }),
    }
}

// Asks for what the side's candidate lacks.
// This and the next calls are lent what they look at, as by C: a struct of all arrays would ask for more.
pub fn next(
    port: Port,
    side: Side,
    svids: &[u16; 72],
    entered: &[u8; 72],
    run: &[u32],
    held_run: &[u32],
    out: &mut [u8],
) -> Result<Accepted, Refused>
    ensures { Owners side port (λ l. decide_next l svids.now entered.now (length run.now) (length held_run.now)) run.now held_run.now out.old (stepped result) out.new }
{
    let laptop = owners_laptop(port, side, run, held_run)?;
    given_on(
        side,
        port,
        owner::next(laptop, svids, entered, run, held_run, out),
    )
}

// Drops the side's candidate and asks for the identity.
pub fn start_over(
    port: Port,
    side: Side,
    entered: &[u8; 72],
    run: &[u32],
    held_run: &[u32],
    out: &mut [u8],
) -> Result<Accepted, Refused>
    ensures { Owners side port (λ l. decide_start_over l entered.now (length run.now) (length held_run.now)) run.now held_run.now out.old (stepped result) out.new }
{
    let laptop = owners_laptop(port, side, run, held_run)?;
    given_on(
        side,
        port,
        owner::start_over(laptop, entered, run, held_run, out),
    )
}

// Drops the side's candidate. Nothing is sent: the output buffer stays as it is.
pub fn drop(
    port: Port,
    side: Side,
    run: &[u32],
    held_run: &[u32],
    out: &mut [u8],
) -> Result<Accepted, Refused>
    ensures { Owners side port (λ l. decide_drop l (length run.now) (length held_run.now)) run.now held_run.now out.old (stepped result) out.new }
{
    let laptop = owners_laptop(port, side, run, held_run)?;
    given_on(side, port, owner::drop(laptop, run, held_run, out))
}

pub fn enter(
    port: Port,
    side: Side,
    svid: u16,
    position: u8,
    held_svids: &[u16; 72],
    held_modes: &[u8; 72],
    entered: &[u8; 72],
    run: &[u32],
    held_run: &[u32],
    out: &mut [u8],
) -> Result<Accepted, Refused>
    ensures { Owners side port
        (λ l. decide_enter l held_svids.now held_modes.now entered.now (length run.now) (length held_run.now) svid position)
        run.now held_run.now out.old (stepped result) out.new }
{
    let laptop = owners_laptop(port, side, run, held_run)?;
    let entering = modes::enter(
        laptop, svid, position, held_svids, held_modes, entered, run, held_run, out,
    );
    given_on(side, port, entering)
}

pub fn exit(
    port: Port,
    side: Side,
    svid: u16,
    position: u8,
    held_svids: &[u16; 72],
    held_modes: &[u8; 72],
    entered: &[u8; 72],
    run: &[u32],
    held_run: &[u32],
    out: &mut [u8],
) -> Result<Accepted, Refused>
    ensures { Owners side port
        (λ l. decide_exit l held_svids.now held_modes.now entered.now (length run.now) (length held_run.now) svid position)
        run.now held_run.now out.old (stepped result) out.new }
{
    let laptop = owners_laptop(port, side, run, held_run)?;
    let exiting = modes::exit(
        laptop, svid, position, held_svids, held_modes, entered, run, held_run, out,
    );
    given_on(side, port, exiting)
}
