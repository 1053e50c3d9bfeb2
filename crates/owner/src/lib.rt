#![tactic(auto)]

// The owner's calls that ask for a catalogue, and *drop*: document 01, "The laptop end". `modes` has those that enter and exit modes.
ghost use Rattle.std.specs.Prelude.{◌≡◌, length};
ghost use Rattle.messages.specs.Refusals.{number_in};
ghost use Rattle.laptop.specs.State.{identity_asked};
ghost use Rattle.laptop.specs.State.{awaiting as State·awaiting};
ghost use Rattle.laptop.specs.Calls.{sends, Stepped};
ghost use Rattle.laptop.specs.Step.{stepped};
ghost use Rattle.owner.specs.Owner.{owner_refusal, any_entered, asking_refusal, request_message, asks, asks_identity, decide_next, decide_start_over, decide_drop};
ghost use Rattle.owner.specs.Owner.{discover as Owner·discover};

use laptop::{Accepted, Candidate, Laptop, Refused, Told, accept, dropped, short_runs, six_bits};
use messages::{IDENTITY, MODES, OURS, PD_SID, REQ, Refusal, Request, SVIDS, head_for, item_or};

// What every owner's call is refused for: a short run, then an answer that is awaited.
#[tactic(auto, unfolding(crate::specs::Owner::owner_refusal))]
pub fn owner_check(laptop: Laptop, run: &[u32], held_run: &[u32]) -> Result<(), Refusal>
    ensures { number_in result ≡ owner_refusal laptop (length run.now) (length held_run.now) }
{
    if short_runs(run, held_run) {
        Err(Refusal::TooShort)
    } else if laptop.wait.is_some() {
        Err(Refusal::Waiting)
    } else {
        Ok(())
    }
}

fn any_entered(entered: &[u8]) -> bool
    ensures { result ≡ any_entered entered.now }
{
    entered.iter().any(|set| six_bits(*set) != 0)
}

// What *next* and *start over* are refused for: what every owner's call is, then a mode that is entered.
#[tactic(auto, unfolding(crate::specs::Owner::asking_refusal))]
fn asking_check(
    laptop: Laptop,
    entered: &[u8; 72],
    run: &[u32],
    held_run: &[u32],
) -> Result<(), Refusal>
    ensures { number_in result ≡ asking_refusal laptop entered.now (length run.now) (length held_run.now) }
{
    owner_check(laptop, run, held_run)?;
    if any_entered(entered) {
        Err(Refusal::Blocked)
    } else {
        Ok(())
    }
}

fn awaiting(request: Request, laptop: Laptop) -> Laptop
    ensures { result ≡ State·awaiting request laptop }
{
    Laptop {
        wait: Some(request),
        ..laptop
    }
}

// Sends a request at the edition of the laptop that it leaves; a buffer that is too short is refused, and the laptop stays as it was.
// Not the dock's `send`: the state is another, and a refusal hands it back.
fn send(
    laptop: Laptop,
    after: Laptop,
    request: Request,
    out: &mut [u8],
) -> Result<Accepted, Refused>
    ensures { Stepped laptop (sends (request_message request) after) out.old (stepped result) out.new }
{
    writing::write(after.edition, head_for(request, REQ), &[], out).map_err(|refusal| Refused {
        refusal,
        laptop,
    })?;
    Ok(Accepted {
        length: 4,
        told: Told::Nothing,
        laptop: after,
    })
}

pub fn ask(laptop: Laptop, request: Request, out: &mut [u8]) -> Result<Accepted, Refused>
    ensures { Stepped laptop (asks request laptop) out.old (stepped result) out.new }
{
    send(laptop, awaiting(request, laptop), request, out)
}

fn discover(svid: u16, command: u8) -> Request
    ensures { result ≡ Owner·discover svid command }
{
    Request {
        svid,
        command,
        position: 0,
    }
}

// Sending Identity sets the page count to 0, and leaves no candidate; it goes out at our edition.
fn identity_asked(laptop: Laptop) -> Laptop
    ensures { result ≡ identity_asked laptop }
{
    Laptop {
        wait: Some(discover(PD_SID, IDENTITY)),
        candidate: Candidate::Absent,
        pages: 0,
        edition: OURS,
        ..laptop
    }
}

fn ask_identity(laptop: Laptop, out: &mut [u8]) -> Result<Accepted, Refused>
    ensures { Stepped laptop (asks_identity laptop) out.old (stepped result) out.new }
{
    send(
        laptop,
        identity_asked(laptop),
        discover(PD_SID, IDENTITY),
        out,
    )
}

// Asks for what the candidate lacks: at last the modes of its first SVID without any.
// Each call is lent the arrays that it looks at, as by C: a struct of all arrays would ask for more.
pub fn next(
    laptop: Laptop,
    svids: &[u16; 72],
    entered: &[u8; 72],
    run: &[u32],
    held_run: &[u32],
    out: &mut [u8],
) -> Result<Accepted, Refused>
    ensures { Stepped laptop (decide_next laptop svids.now entered.now (length run.now) (length held_run.now)) out.old (stepped result) out.new }
{
    asking_check(laptop, entered, run, held_run).map_err(|refusal| Refused { refusal, laptop })?;
    match laptop.candidate {
        Candidate::Absent => ask_identity(laptop, out),
        Candidate::Open => ask(laptop, discover(PD_SID, SVIDS), out),
        Candidate::Done => {
            let svid = item_or(svids, usize::from(laptop.stored), 0);
            ask(laptop, discover(svid, MODES), out)
        }
    }
}

// Drops the candidate and asks for the identity.
pub fn start_over(
    laptop: Laptop,
    entered: &[u8; 72],
    run: &[u32],
    held_run: &[u32],
    out: &mut [u8],
) -> Result<Accepted, Refused>
    ensures { Stepped laptop (decide_start_over laptop entered.now (length run.now) (length held_run.now)) out.old (stepped result) out.new }
{
    asking_check(laptop, entered, run, held_run).map_err(|refusal| Refused { refusal, laptop })?;
    ask_identity(laptop, out)
}

// Drops the candidate. Nothing is sent: the output buffer stays as it is.
pub fn drop(
    laptop: Laptop,
    run: &[u32],
    held_run: &[u32],
    out: &mut [u8],
) -> Result<Accepted, Refused>
    ensures { Stepped laptop (decide_drop laptop (length run.now) (length held_run.now)) out.old (stepped result) out.new }
{
    owner_check(laptop, run, held_run).map_err(|refusal| Refused { refusal, laptop })?;
    accept(Told::Nothing, dropped(laptop))
}
