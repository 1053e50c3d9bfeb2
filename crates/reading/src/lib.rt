#![tactic(auto)]

// Reading a message off bytes: document 01, "Message layout" and refusals 1, 2, 3 and 5. What reading gives is defined in `messages`.
mod object;

ghost use Rattle.std.specs.Prelude.{◌≡◌};
ghost use Rattle.laws.specs.Lines.{first_line};
ghost use Rattle.messages.specs.Layout.{head_of, edition_said};
ghost use Rattle.messages.specs.Reading.{header_lines, objects_in, read_outcome, shown, as_shown};
ghost use Rattle.messages.specs.Refusals.{number_in};

use messages::{Edition, Head, Received, Refusal, shape};
pub use object::object_at;
use std::array;

// No From: only a whole message's first object is a header.
fn head_of(header: u32) -> Head
    ensures { result ≡ head_of header }
{
    Head {
        svid: (header / 65536) as u16,
        command: (header % 32) as u8,
        kind: (header / 64 % 4) as u8,
        position: (header / 256 % 8) as u8,
    }
}

// Major 0 is 1.0 whatever its minor; of major 1 a minor above 1 counts as 1.
// No TryFrom: a header names an edition by other bits than a number does.
fn edition_said(header: u32) -> Edition
    ensures { result ≡ edition_said header }
{
    if header / 8192 % 4 == 0 {
        return Edition::OneZero;
    }
    if header / 2048 % 4 == 0 {
        return Edition::TwoZero;
    }
    Edition::TwoOne
}

// Refusals 2, 3 and 5, by the header and the number of objects. Bit 5 is not looked at (02, R-2).
fn header_check(header: u32, count: u8) -> Result<(), Refusal>
    ensures { number_in result ≡ first_line 2 (header_lines header count) }
{
    if header / 32768 % 2 == 0 {
        return Err(Refusal::Unstructured);
    }
    if 2 <= header / 8192 % 4 {
        return Err(Refusal::WrongMajor);
    }
    if shape(head_of(header), count) {
        Ok(())
    } else {
        Err(Refusal::WrongShape)
    }
}

// The words behind the header, with 0 past the end.
fn objects_in(bytes: &[u8]) -> [u32; 6]
    ensures { result ≡ objects_in bytes.now }
{
    array::from_fn(|i| object_at(bytes, i + 1))
}

pub fn read(bytes: &[u8]) -> Result<Received, Refusal>
    ensures { as_shown result ≡ shown (read_outcome bytes.now) }
{
    let n = bytes.len();
    if n < 4 || 28 < n || n % 4 != 0 {
        return Err(Refusal::WrongLength);
    }
    let header = object_at(bytes, 0);
    header_check(header, (n / 4) as u8)?;
    Ok(Received {
        edition: edition_said(header),
        head: head_of(header),
        count: (n / 4 - 1) as u8,
        objects: objects_in(bytes),
    })
}
