// An answer that is awaited.
ghost use Rattle.std.specs.Prelude.{◌≡◌, ◌≤◌, take};
ghost use Rattle.laws.specs.Padded.{padded};
ghost use Rattle.hearing.specs.Parts.{brings_part, GathersPart, HearsAnswer};
ghost use Rattle.hearing.specs.Parts.{completes as Parts·completes};
ghost use Rattle.laptop.specs.State.{memory_lent};
ghost use Rattle.laptop.specs.Step.{stepped};

use answers::{hear_mode, hear_modes};
use gathering::{hear_identity, hear_svids};
use laptop::{Accepted, Laptop, Refused};
use messages::{BUSY, IDENTITY, MODES, Received, Request, SVIDS};
use publishing::{is_whole, publish};

// Identity, SVIDs and Modes bring a part of the candidate.
fn brings_part(command: u8) -> bool
    ensures { result ≡ brings_part command }
{
    IDENTITY <= command && command <= MODES
}

// The part is gathered, whatever is held.
fn gather(
    laptop: Laptop,
    received: &Received,
    svids: &mut [u16; 72],
    modes: &mut [u8; 72],
    identity: &mut [u32; 6],
    run: &mut [u32],
) -> Result<Accepted, Refused>
    ensures { GathersPart laptop received.now.edition received.now.head.command received.now.head.kind received.now.count received.now.objects svids modes identity run (stepped result) }
{
    let Received {
        edition,
        head,
        count,
        objects,
    } = received;
    if head.command == IDENTITY {
        return hear_identity(
            laptop, *edition, head.kind, *count, objects, svids, identity,
        );
    }
    if head.command == SVIDS {
        return hear_svids(laptop, head.kind, *count, objects, svids);
    }
    hear_modes(laptop, head.kind, *count, objects, modes, run)
}

// Does the answer make the candidate whole? BUSY never does.
fn completes(kind: u8, laptop: Laptop) -> bool
    ensures { result ≡ Parts·completes kind laptop }
{
    kind != BUSY && is_whole(laptop)
}

// A candidate that its last part makes whole is published.
pub(crate) fn hear_answer(
    laptop: Laptop,
    received: &Received,
    svids: &mut [u16; 72],
    modes: &mut [u8; 72],
    identity: &mut [u32; 6],
    run: &mut [u32],
    held_svids: &mut [u16; 72],
    held_modes: &mut [u8; 72],
    held_identity: &mut [u32; 6],
    held_run: &mut [u32],
    entered: &mut [u8; 72],
) -> Result<Accepted, Refused>
    requires { (received.now.count ≤ 6) × (padded (take received.now.count received.now.objects) ≡ received.now.objects) }
    ensures { HearsAnswer laptop received.now.edition received.now.head (take received.now.count received.now.objects) (memory_lent svids modes identity run held_svids held_modes held_identity held_run entered) (stepped result) }
{
    let head = received.head;
    if !brings_part(head.command) {
        return hear_mode(laptop, head.kind, Request::from(head), held_svids, entered);
    }
    let accepted = match gather(laptop, received, svids, modes, identity, run) {
        Ok(accepted) => accepted,
        Err(refused) => return Err(refused),
    };
    if !completes(head.kind, accepted.laptop) {
        return Ok(accepted);
    }
    let laptop = publish(
        accepted.laptop,
        svids,
        modes,
        identity,
        run,
        held_svids,
        held_modes,
        held_identity,
        held_run,
    );
    Ok(Accepted { laptop, ..accepted })
}
