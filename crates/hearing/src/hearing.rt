// A message that arrives.
ghost use Rattle.std.specs.Prelude.{◌≡◌};
ghost use Rattle.hearing.specs.Hearing.{notice_of, hear_request, is_late_page, hear_unawaited, Hears};
ghost use Rattle.hearing.specs.Hearing.{fits as Hearing·fits};
ghost use Rattle.laptop.specs.State.{memory_lent};
ghost use Rattle.laptop.specs.Step.{stepped};

use crate::awaited::hear_answer;
use laptop::{
    Accepted, Candidate, Laptop, Notice, Refused, Told, accept, dropped, refuse, short_runs,
};
use messages::{ACK, ATTENTION, Head, REQ, Refusal, Request, SVIDS, same_request};

fn notice_of(head: Head, count: u8, object: u32) -> Notice
    ensures { result ≡ notice_of head count object }
{
    Notice {
        svid: head.svid,
        position: head.position,
        count,
        object,
    }
}

// A request: Attention goes to policy at any time, any other is 6.
// It takes the parts of the message that its definition names.
#[tactic(auto, unfolding(crate::specs::Hearing::hear_request))]
fn hear_request(laptop: Laptop, head: Head, count: u8, object: u32) -> Result<Accepted, Refused>
    ensures { stepped result ≡ hear_request laptop head count object }
{
    if head.command == ATTENTION {
        return accept(Told::Attention(notice_of(head, count, object)), laptop);
    }
    refuse(Refusal::Unawaited, laptop)
}

// Does the answer fit the awaited SVID, command and position?
// Both sides of `&` are worked out: a branch between them takes `laptop_message` over its limit of stack.
fn fits(wait: Option<Request>, head: Head) -> bool
    ensures { result ≡ Hearing·fits wait head }
{
    let asked = Request::from(head);
    wait.is_some() & same_request(wait.unwrap_or(asked), asked)
}

// A page that nobody awaits may have been confirmed.
#[tactic(auto, unfolding(crate::specs::Hearing::is_late_page))]
fn is_late_page(laptop: Laptop, head: Head) -> bool
    ensures { result ≡ is_late_page laptop head }
{
    laptop.wait.is_none()
        && laptop.candidate == Candidate::Open
        && head.command == SVIDS
        && head.kind == ACK
}

// An answer that is not awaited is 6; a late page drops an open list.
#[tactic(auto, unfolding(crate::specs::Hearing::hear_unawaited))]
fn hear_unawaited(laptop: Laptop, head: Head) -> Result<Accepted, Refused>
    ensures { stepped result ≡ hear_unawaited laptop head }
{
    if is_late_page(laptop, head) {
        refuse(Refusal::Unawaited, dropped(laptop))
    } else {
        refuse(Refusal::Unawaited, laptop)
    }
}

pub fn message(
    laptop: Laptop,
    bytes: &[u8],
    svids: &mut [u16; 72],
    modes: &mut [u8; 72],
    identity: &mut [u32; 6],
    run: &mut [u32],
    held_svids: &mut [u16; 72],
    held_modes: &mut [u8; 72],
    held_identity: &mut [u32; 6],
    held_run: &mut [u32],
    entered: &mut [u8; 72],
) -> Result<Accepted, Refused>
    ensures { Hears laptop bytes.now (memory_lent svids modes identity run held_svids held_modes held_identity held_run entered) (stepped result) }
{
    if short_runs(run, held_run) {
        return refuse(Refusal::TooShort, laptop);
    }
    let read = reading::read(bytes);
    let Ok(received) = &read else {
        return refuse(read.unwrap_err(), laptop);
    };
    let head = received.head;
    if head.kind == REQ {
        return hear_request(laptop, head, received.count, received.objects[0]);
    }
    if !fits(laptop.wait, head) {
        return hear_unawaited(laptop, head);
    }
    hear_answer(
        laptop,
        received,
        svids,
        modes,
        identity,
        run,
        held_svids,
        held_modes,
        held_identity,
        held_run,
        entered,
    )
}
