// The dock as the cases have it: its data, and policy behind it.
use crate::written::{LONGEST, Message};
use dock::{Accepted, Dock, Policy, Standing};
use messages::{MODES, Refusal, first};
use pages::{MOST_SVIDS, first_svids};

pub const IDENTITY_OBJECTS: [u32; 3] = [1, 2, 3];

// The mode of every SVID.
pub const MODE: u32 = 0x00000405;

// The SVIDs of every case: 1, 2, 3 and so on.
fn svids() -> [u16; MOST_SVIDS] {
    let mut svids = [0; MOST_SVIDS];
    for (svid, number) in svids.iter_mut().zip(1..) {
        *svid = number;
    }
    svids
}

// A dock that refuses stays as it was.
pub fn after(dock: Dock, stepped: Result<Accepted, Refusal>) -> Dock {
    stepped.map_or(dock, |accepted| accepted.dock)
}

// Loads the first SVIDs.
pub fn load(dock: &mut Dock, count: usize) {
    let stepped = loading::load(*dock, &IDENTITY_OBJECTS, first_svids(&svids(), count));
    *dock = after(*dock, stepped);
}

// How many objects Give brings.
fn given(command: u8) -> usize {
    if command == MODES { 1 } else { 0 }
}

// The request is taken, and policy answers it.
pub fn reply(dock: &mut Dock, policy: Policy, request: Message) -> Message {
    let mut out = [0; LONGEST];
    *dock = after(*dock, receiving::message(*dock, request.bytes(), &mut out));
    let Standing::Asking(request) = dock.standing else {
        return Message::nothing();
    };
    let objects = first(&[MODE], given(request.command));
    match answering::policy_answer(*dock, policy, request, objects, &mut out) {
        Ok(accepted) => {
            *dock = accepted.dock;
            Message::new(out, usize::from(accepted.length))
        }
        Err(_) => Message::nothing(),
    }
}
