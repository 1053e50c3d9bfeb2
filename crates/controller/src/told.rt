// What a laptop's call hands over besides the refusal number, as eight numbers: how many bytes of the output buffer are
// to be sent; what policy is told (0 nothing, 1 an Attention, 2 NAK, 3 BUSY, 4 a timer, 5 a protocol error); the SVID,
// command and position of the request, or of the Attention, with how many objects follow its header and that object;
// the side (0 the partner, 1 the cable).
ghost use Rattle.std.specs.Prelude.{◌≡◌};
ghost use Rattle.laws.specs.Lent.{accepted};
ghost use Rattle.port.specs.Step.{stepped};
ghost use Rattle.controller.specs.Port.{numbers_after};
ghost use Rattle.controller.specs.Told.{request_numbers, notice_numbers, told_numbers, handed_numbers};

use crate::numbers::side_number;
use crate::port_writing::{put_port, put_port_here};
use laptop::{Notice, Told};
use messages::{ATTENTION, Request};
use port::{Accepted, Port, Refused};

fn request_numbers(length: u8, tag: u32, request: Request, side: u8) -> [u32; 8]
    ensures { result ≡ request_numbers length tag request side }
{
    [
        u32::from(length),
        tag,
        u32::from(request.svid),
        u32::from(request.command),
        u32::from(request.position),
        0,
        0,
        u32::from(side),
    ]
}

fn notice_numbers(length: u8, notice: Notice, side: u8) -> [u32; 8]
    ensures { result ≡ notice_numbers length notice side }
{
    [
        u32::from(length),
        1,
        u32::from(notice.svid),
        u32::from(ATTENTION),
        u32::from(notice.position),
        u32::from(notice.count),
        notice.object,
        u32::from(side),
    ]
}

fn told_numbers(length: u8, told: Told, side: u8) -> [u32; 8]
    ensures { result ≡ told_numbers length told side }
{
    match told {
        Told::Nothing => [u32::from(length), 0, 0, 0, 0, 0, 0, u32::from(side)],
        Told::Attention(notice) => notice_numbers(length, notice, side),
        Told::Nak(request) => request_numbers(length, 2, request, side),
        Told::Busy(request) => request_numbers(length, 3, request, side),
        Told::Timer(request) => request_numbers(length, 4, request, side),
        Told::ProtocolError(request) => request_numbers(length, 5, request, side),
    }
}

fn port_in(given: Result<Accepted, Refused>) -> Port
    ensures { result ≡ (stepped given).port }
{
    match given {
        Ok(accepted) => accepted.port,
        Err(refused) => refused.port,
    }
}

// On acceptance writes what is handed over into what was lent; gives the refusal number.
#[inline(always)]
fn tell(given: Result<Accepted, Refused>, handed: &mut [u32; 8]) -> u8
    ensures { (result ≡ (stepped given).refusal)
        × (handed.new ≡ accepted result (handed_numbers (stepped given)) handed.old) }
{
    match given {
        Ok(accepted) => {
            *handed = told_numbers(accepted.length, accepted.told, side_number(accepted.side));
            0
        }
        Err(refused) => u8::from(refused.refusal),
    }
}

// The new state is written back, on acceptance what is handed over too; gives the refusal number. A part of its
// callers, and the state is written at one place: else it costs them two more ports on the stack.
#[inline(always)]
pub(crate) fn hand_over(
    given: Result<Accepted, Refused>,
    state: &mut [u16; 22],
    handed: &mut [u32; 8],
) -> u8
    ensures { (result ≡ (stepped given).refusal)
        × (state.new ≡ numbers_after state.old (stepped given).port)
        × (handed.new ≡ accepted result (handed_numbers (stepped given)) handed.old) }
{
    put_port(&port_in(given), state);
    tell(given, handed)
}

// The same for `laptop_next`, which has less on the stack where the state is written in it.
#[inline(always)]
pub(crate) fn hand_over_here(
    given: Result<Accepted, Refused>,
    state: &mut [u16; 22],
    handed: &mut [u32; 8],
) -> u8
    ensures { (result ≡ (stepped given).refusal)
        × (state.new ≡ numbers_after state.old (stepped given).port)
        × (handed.new ≡ accepted result (handed_numbers (stepped given)) handed.old) }
{
    put_port_here(&port_in(given), state);
    tell(given, handed)
}
