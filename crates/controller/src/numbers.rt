// Numbers, requests, sides and editions.
ghost use Rattle.std.specs.Prelude.{◌≡◌};
ghost use Rattle.controller.specs.Port.{low_byte, request_from, side_from, side_number, edition_from};

use messages::{Edition, Request};
use port::Side;

// The low eight bits.
pub(crate) fn low_byte(number: u16) -> u8
    ensures { result ≡ low_byte number }
{
    (number % 256) as u8
}

pub(crate) fn request_from(svid: u16, command: u16, position: u16) -> Request
    ensures { result ≡ request_from svid command position }
{
    Request {
        svid,
        command: low_byte(command),
        position: low_byte(position),
    }
}

// 1 the cable, any other the partner.
pub(crate) fn side_from(number: u8) -> Side
    ensures { result ≡ side_from number }
{
    match number {
        1 => Side::Cable,
        _ => Side::Partner,
    }
}

// These numbers are the C interface's: `port`, where an impl of From would have to stand, knows none.
pub(crate) fn side_number(side: Side) -> u8
    ensures { result ≡ side_number side }
{
    match side {
        Side::Partner => 0,
        Side::Cable => 1,
    }
}

// 10 is 1.0, 20 is 2.0, any other 2.1.
pub(crate) fn edition_from(number: u16) -> Edition
    ensures { result ≡ edition_from number }
{
    match number {
        10 => Edition::OneZero,
        20 => Edition::TwoZero,
        _ => Edition::TwoOne,
    }
}
