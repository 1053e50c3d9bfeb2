// The call of a partner's kind, with the mode that its body names.
ghost use Rattle.std.specs.Prelude.{◌≡◌, ◌+◌, ◌*◌, ◌^◌, ◌≤◌, length, drop};
ghost use Rattle.events.specs.Events.{partners_length, mode_in, call_of};

use crate::kinds::{DROP, ENTER, ENTRY_TIMER, EXIT, EXIT_TIMER, NEXT, RESPONSE_TIMER, START_OVER};
use crate::{Call, Mode};

#[tactic(auto, unfolding(crate::specs::Events::mode_in))]
fn mode_in(bytes: &[u8]) -> Mode
    requires { 4 ≤ length bytes.now }
    ensures { result ≡ mode_in (drop 1 bytes.now) }
{
    Mode {
        svid: u16::from_le_bytes([bytes[1], bytes[2]]),
        position: bytes[3],
    }
}

// Of a partner's kind, which is known and no message's: what is left is the protocol error.
// It is made of a kind and a body, so no From.
#[tactic(auto, unfolding(crate::specs::Events::call_of, crate::specs::Events::partners_length, crate::specs::Events::is_message, crate::specs::Events::names_mode))]
pub(crate) fn call_of(kind: u8, bytes: &[u8]) -> Call
    requires { 1 + partners_length kind ≤ length bytes.now }
    ensures { result ≡ call_of kind (drop 1 bytes.now) }
{
    match kind {
        NEXT => Call::Next,
        START_OVER => Call::StartOver,
        DROP => Call::Drop,
        RESPONSE_TIMER => Call::ResponseTimer,
        ENTRY_TIMER => Call::EntryTimer,
        EXIT_TIMER => Call::ExitTimer,
        ENTER => Call::Enter(mode_in(bytes)),
        EXIT => Call::Exit(mode_in(bytes)),
        _ => Call::ProtocolError,
    }
}
