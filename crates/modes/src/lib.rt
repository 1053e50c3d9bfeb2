#![tactic(auto)]

// The owner's calls that enter and exit modes: document 01, "The laptop end".
ghost use Rattle.std.specs.Prelude.{◌≡◌};
ghost use Rattle.messages.specs.Refusals.{number_in};
ghost use Rattle.laptop.specs.Marks.{is_entered};
ghost use Rattle.laptop.specs.Step.{stepped};
ghost use Rattle.owner.specs.Owner.{has_mode, enter_refusal, exit_refusal, Enters, Exits};

use laptop::{
    Accepted, Candidate, Laptop, Refused, held_list, modes_number, named, place_of, refuse,
};
use messages::{ENTER, EXIT, Refusal, Request, item_or};
use owner::{ask, owner_check};

#[tactic(auto, unfolding(laptop::specs::Marks::is_entered))]
fn is_entered(entered: &[u8], place: usize, position: u8) -> bool
    ensures { result ≡ is_entered entered.now place position }
{
    item_or(entered, place, 0) & named(position) != 0
}

// Is the position one of the modes of the SVID at the place?
#[tactic(auto, unfolding(owner::specs::Owner::has_mode))]
fn has_mode(modes: &[u8], place: usize, position: u8) -> bool
    ensures { result ≡ has_mode modes.now place position }
{
    (1..=modes_number(modes, place)).contains(&position)
}

// What *enter* is refused for: the held catalogue lacks the mode, or that is entered.
#[tactic(auto, unfolding(owner::specs::Owner::enter_refusal))]
fn enter_check(list: &[u16], modes: &[u8], entered: &[u8], mode: Request) -> Result<(), Refusal>
    ensures { number_in result ≡ enter_refusal list.now modes.now entered.now mode.svid mode.position }
{
    let place = place_of(mode.svid, list);
    if list.len() <= place || !has_mode(modes, place, mode.position) {
        Err(Refusal::NotHeld)
    } else if is_entered(entered, place, mode.position) {
        Err(Refusal::Blocked)
    } else {
        Ok(())
    }
}

// What *exit* is refused for: the SVID is not held, or the position is neither 7 nor one of its modes; or it is not
// entered.
#[tactic(auto, unfolding(owner::specs::Owner::exit_refusal))]
fn exit_check(list: &[u16], modes: &[u8], entered: &[u8], mode: Request) -> Result<(), Refusal>
    ensures { number_in result ≡ exit_refusal list.now modes.now entered.now mode.svid mode.position }
{
    let place = place_of(mode.svid, list);
    if list.len() <= place || mode.position != 7 && !has_mode(modes, place, mode.position) {
        Err(Refusal::NotHeld)
    } else if is_entered(entered, place, mode.position) {
        Ok(())
    } else {
        Err(Refusal::Blocked)
    }
}

// *Enter* and *exit* stay two calls, lent each array by itself, as the C interface has them; each has refusals of its
// own.
pub fn enter(
    laptop: Laptop,
    svid: u16,
    position: u8,
    held_svids: &[u16; 72],
    held_modes: &[u8; 72],
    entered: &[u8; 72],
    run: &[u32],
    held_run: &[u32],
    out: &mut [u8],
) -> Result<Accepted, Refused>
    ensures { Enters laptop svid position held_svids.now held_modes.now entered.now run.now held_run.now out.old (stepped result) out.new }
{
    owner_check(laptop, run, held_run).map_err(|refusal| Refused { refusal, laptop })?;
    if laptop.candidate != Candidate::Absent {
        return refuse(Refusal::Blocked, laptop);
    }
    let list = held_list(laptop.held, held_svids);
    let mode = Request {
        svid,
        command: ENTER,
        position,
    };
    enter_check(list, held_modes, entered, mode).map_err(|refusal| Refused { refusal, laptop })?;
    ask(laptop, mode, out)
}

// As for `enter`, svid and position are C's.
pub fn exit(
    laptop: Laptop,
    svid: u16,
    position: u8,
    held_svids: &[u16; 72],
    held_modes: &[u8; 72],
    entered: &[u8; 72],
    run: &[u32],
    held_run: &[u32],
    out: &mut [u8],
) -> Result<Accepted, Refused>
    ensures { Exits laptop svid position held_svids.now held_modes.now entered.now run.now held_run.now out.old (stepped result) out.new }
{
    owner_check(laptop, run, held_run).map_err(|refusal| Refused { refusal, laptop })?;
    let list = held_list(laptop.held, held_svids);
    let mode = Request {
        svid,
        command: EXIT,
        position,
    };
    exit_check(list, held_modes, entered, mode).map_err(|refusal| Refused { refusal, laptop })?;
    ask(laptop, mode, out)
}
