// What a request names, and its answer repeats.
ghost use Rattle.std.specs.Prelude.{◌≡◌};
ghost use Rattle.messages.specs.Requests.{request_of, same_request, head_for};

use crate::Head;

// Any command may be named: the dock says NAK to one that there is not.
#[derive(Clone, Copy, PartialEq, Eq)]
pub struct Request {
    pub svid: u16,
    pub command: u8,
    pub position: u8,
}

impl From<Head> for Request {
    ghost from_gives = { λ head request. request ≡ request_of head };

    fn from(head: Head) -> Request {
        Request {
            svid: head.svid,
            command: head.command,
            position: head.position,
        }
    }
}

pub fn same_request(a: Request, b: Request) -> bool
    ensures { result ≡ same_request a b }
{
    a == b
}

// The head of the request, or of an answer to it.
// It is made of two values, so no From.
pub fn head_for(request: Request, kind: u8) -> Head
    ensures { result ≡ head_for request kind }
{
    Head {
        svid: request.svid,
        command: request.command,
        kind,
        position: request.position,
    }
}
