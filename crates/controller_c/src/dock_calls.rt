// The dock's calls.
ghost use Rattle.std.specs.Prelude.{◌≡◌};
ghost use Rattle.messages.specs.Reading.{read_outcome};
ghost use Rattle.dock.specs.Data.{fresh_dock};
ghost use Rattle.dock.specs.Dock.{decide_message, decide_policy_answer, decide_sent, decide_failed};
ghost use Rattle.controller.specs.Dock.{policy_from, dock_numbers};
ghost use Rattle.controller.specs.DockCalls.{DockSendsNothing, DockSends, DockLoads};
ghost use Rattle.laws.specs.Lent.{left};

// A fresh dock.
#[unsafe(no_mangle)]
pub extern "C" fn dock_fresh(state: &mut [u16; 8], identity: &mut [u32; 6], svids: &mut [u16; 72])
    ensures { (left state ≡ dock_numbers fresh_dock) × (left identity ≡ fresh_dock.identity) × (left svids ≡ fresh_dock.svids) }
{
    controller::dock_fresh(state, identity, svids)
}

#[unsafe(no_mangle)]
pub extern "C" fn dock_load(
    state: &mut [u16; 8],
    identity: &mut [u32; 6],
    svids: &mut [u16; 72],
    new_identity: &[u32],
    new_svids: &[u16],
    length: &mut u8,
) -> u8
    ensures { DockLoads new_identity.now new_svids.now result state identity svids length }
{
    controller::dock_load(state, identity, svids, new_identity, new_svids, length)
}

#[unsafe(no_mangle)]
pub extern "C" fn dock_message(
    state: &mut [u16; 8],
    identity: &[u32; 6],
    svids: &[u16; 72],
    bytes: &[u8],
    out: &mut [u8],
    length: &mut u8,
) -> u8
    ensures { DockSends (λ d. decide_message d (read_outcome bytes.now)) result state identity.now svids.now out length }
{
    controller::dock_message(state, identity, svids, bytes, out, length)
}

// Policy's answer: 1 NAK, 2 BUSY, any other give.
#[unsafe(no_mangle)]
pub extern "C" fn dock_policy_answer(
    state: &mut [u16; 8],
    identity: &[u32; 6],
    svids: &[u16; 72],
    policy: u8,
    svid: u16,
    command: u8,
    position: u8,
    objects: &[u32],
    out: &mut [u8],
    length: &mut u8,
) -> u8
    ensures { DockSends
        (λ d. decide_policy_answer d d.standing (policy_from policy) (record { svid = svid; command = command; position = position }) objects.now)
        result state identity.now svids.now out length }
{
    controller::dock_policy_answer(
        state, identity, svids, policy, svid, command, position, objects, out, length,
    )
}

#[unsafe(no_mangle)]
pub extern "C" fn dock_sent(
    state: &mut [u16; 8],
    identity: &[u32; 6],
    svids: &[u16; 72],
    length: &mut u8,
) -> u8
    ensures { DockSendsNothing (λ d. decide_sent d d.standing) result state identity.now svids.now length }
{
    controller::dock_sent(state, identity, svids, length)
}

#[unsafe(no_mangle)]
pub extern "C" fn dock_failed(
    state: &mut [u16; 8],
    identity: &[u32; 6],
    svids: &[u16; 72],
    length: &mut u8,
) -> u8
    ensures { DockSendsNothing (λ d. decide_failed d d.standing) result state identity.now svids.now length }
{
    controller::dock_failed(state, identity, svids, length)
}
