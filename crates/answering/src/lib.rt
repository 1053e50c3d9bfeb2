#![tactic(auto)]

// The dock end answers a request as policy says, at the edition that the request has set: document 01, "The dock end"; document 02, R-5. The state is that of
// `dock`.
ghost use Rattle.dock.specs.Dock.{give_identity, give_page, give_modes, give_other, declined, decide_policy, decide_policy_answer, Stepped};
ghost use Rattle.dock.specs.Step.{stepped};

use dock::{Accepted, Dock, Policy, Standing, send, send_bare};
use messages::{ACK, BUSY, IDENTITY, MODES, NAK, Refusal, Request, SVIDS, first, same_request};
use pages::make_page;

fn give_identity(dock: Dock, request: Request, out: &mut [u8]) -> Result<Accepted, Refusal>
    ensures { Stepped dock (give_identity dock request) out.old (stepped dock result) out.new }
{
    if dock.extent < 3 || 6 < dock.extent {
        return Err(Refusal::BadData);
    }
    let identity = first(&dock.identity, usize::from(dock.extent));
    send(dock, dock.edition, request, ACK, identity, false, out)
}

fn give_page(dock: Dock, request: Request, out: &mut [u8]) -> Result<Accepted, Refusal>
    ensures { Stepped dock (give_page dock request) out.old (stepped dock result) out.new }
{
    let list = first(&dock.svids, usize::from(dock.count));
    if list.is_empty() {
        return send_bare(dock, dock.edition, request, NAK, out);
    }
    let page = make_page(list, dock.page);
    let objects = first(&page.objects, usize::from(page.count));
    send(dock, dock.edition, request, ACK, objects, true, out)
}

fn give_modes(
    dock: Dock,
    request: Request,
    objects: &[u32],
    out: &mut [u8],
) -> Result<Accepted, Refusal>
    ensures { Stepped dock (give_modes dock request objects.now) out.old (stepped dock result) out.new }
{
    if objects.is_empty() || 6 < objects.len() {
        return Err(Refusal::BadData);
    }
    send(dock, dock.edition, request, ACK, objects, false, out)
}

fn give_other(dock: Dock, request: Request, out: &mut [u8]) -> Result<Accepted, Refusal>
    ensures { Stepped dock (give_other dock request) out.old (stepped dock result) out.new }
{
    match request.command {
        IDENTITY => give_identity(dock, request, out),
        SVIDS => give_page(dock, request, out),
        _ => send_bare(dock, dock.edition, request, ACK, out),
    }
}

fn give(dock: Dock, request: Request, objects: &[u32], out: &mut [u8]) -> Result<Accepted, Refusal>
    ensures { Stepped dock (decide_policy dock Policy.Give request objects.now) out.old (stepped dock result) out.new }
{
    if request.command == MODES {
        return give_modes(dock, request, objects, out);
    }
    if !objects.is_empty() {
        return Err(Refusal::BadData);
    }
    give_other(dock, request, out)
}

// A part of its caller, so that no state of its own lies on the stack.
#[inline(always)]
fn decline(
    dock: Dock,
    request: Request,
    kind: u8,
    objects: &[u32],
    out: &mut [u8],
) -> Result<Accepted, Refusal>
    ensures { Stepped dock (declined dock request kind objects.now) out.old (stepped dock result) out.new }
{
    if !objects.is_empty() {
        return Err(Refusal::BadData);
    }
    send_bare(dock, dock.edition, request, kind, out)
}

// Policy's answer to the request that it names: refused 9 if it names another or none is waiting, then 10, then 11.
// A match and no closure: each arm takes another part of what is lent.
pub fn policy_answer(
    dock: Dock,
    policy: Policy,
    request: Request,
    objects: &[u32],
    out: &mut [u8],
) -> Result<Accepted, Refusal>
    ensures { Stepped dock (decide_policy_answer dock dock.standing policy request objects.now) out.old (stepped dock result) out.new }
{
    let Standing::Asking(asked) = dock.standing else {
        return Err(Refusal::NotNow);
    };
    if !same_request(asked, request) {
        return Err(Refusal::NotNow);
    }
    match policy {
        Policy::Give => give(dock, request, objects, out),
        Policy::Nak => decline(dock, request, NAK, objects, out),
        Policy::Busy => decline(dock, request, BUSY, objects, out),
    }
}
