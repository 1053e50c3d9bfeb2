// The dock's calls.
ghost use Rattle.std.specs.Prelude.{◌≡◌};
ghost use Rattle.messages.specs.Reading.{read_outcome};
ghost use Rattle.dock.specs.Data.{fresh_dock};
ghost use Rattle.dock.specs.Dock.{decide_message, decide_policy_answer, decide_sent, decide_failed};
ghost use Rattle.controller.specs.Dock.{policy_from, dock_numbers};
ghost use Rattle.controller.specs.DockCalls.{DockSendsNothing, DockSends, DockLoads};
ghost use Rattle.laws.specs.Lent.{lent};

use crate::dock_state::{dock_from, dock_numbers, hand_over};
use dock::Policy;
use messages::Request;

fn policy_from(number: u8) -> Policy
    ensures { result ≡ policy_from number }
{
    match number {
        1 => Policy::Nak,
        2 => Policy::Busy,
        _ => Policy::Give,
    }
}

// A fresh dock.
pub fn dock_fresh(state: &mut [u16; 8], identity: &mut [u32; 6], svids: &mut [u16; 72])
    ensures { (state.new ≡ dock_numbers fresh_dock) × (identity.new ≡ fresh_dock.identity) × (svids.new ≡ fresh_dock.svids) }
{
    let dock = dock::fresh();
    let no_objects = dock.identity;
    let no_svids = dock.svids;
    *state = dock_numbers(dock);
    *identity = no_objects;
    *svids = no_svids;
}

pub fn dock_load(
    state: &mut [u16; 8],
    identity: &mut [u32; 6],
    svids: &mut [u16; 72],
    new_identity: &[u32],
    new_svids: &[u16],
    length: &mut u8,
) -> u8
    ensures { DockLoads new_identity.now new_svids.now result state identity svids length }
{
    let given = loading::load(dock_from(state, identity, svids), new_identity, new_svids);
    let number = hand_over(given, state, length);
    if let Ok(accepted) = given {
        let objects = accepted.dock.identity;
        let list = accepted.dock.svids;
        *identity = objects;
        *svids = list;
    }
    number
}

pub fn dock_message(
    state: &mut [u16; 8],
    identity: &[u32; 6],
    svids: &[u16; 72],
    bytes: &[u8],
    out: &mut [u8],
    length: &mut u8,
) -> u8
    ensures { DockSends (λ d. decide_message d (read_outcome bytes.now)) result state identity.now svids.now out length }
{
    let given = receiving::message(dock_from(state, identity, svids), bytes, out);
    hand_over(given, state, length)
}

// Policy's answer: 1 NAK, 2 BUSY, any other give.
pub fn dock_policy_answer(
    state: &mut [u16; 8],
    identity: &[u32; 6],
    svids: &[u16; 72],
    policy: u8,
    svid: u16,
    command: u8,
    position: u8,
    objects: &[u32],
    out: &mut [u8],
    length: &mut u8,
) -> u8
    ensures { DockSends
        (λ d. decide_policy_answer d d.standing (policy_from policy) (record { svid = svid; command = command; position = position }) objects.now)
        result state identity.now svids.now out length }
{
    let request = Request {
        svid,
        command,
        position,
    };
    let given = answering::policy_answer(
        dock_from(state, identity, svids),
        policy_from(policy),
        request,
        objects,
        out,
    );
    hand_over(given, state, length)
}

pub fn dock_sent(
    state: &mut [u16; 8],
    identity: &[u32; 6],
    svids: &[u16; 72],
    length: &mut u8,
) -> u8
    ensures { DockSendsNothing (λ d. decide_sent d d.standing) result state identity.now svids.now length }
{
    let given = confirming::sent(dock_from(state, identity, svids));
    hand_over(given, state, length)
}

pub fn dock_failed(
    state: &mut [u16; 8],
    identity: &[u32; 6],
    svids: &[u16; 72],
    length: &mut u8,
) -> u8
    ensures { DockSendsNothing (λ d. decide_failed d d.standing) result state identity.now svids.now length }
{
    let given = confirming::failed(dock_from(state, identity, svids));
    hand_over(given, state, length)
}
