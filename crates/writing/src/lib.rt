#![tactic(auto)]

// Writing a message at an edition into a lent buffer: document 01, "Message layout" and refusals 5 and 11; document 02, R-5. What writing leaves is defined in
// `messages`.
ghost use Rattle.std.specs.Prelude.{◌≡◌, ◌+◌, ◌*◌, ◌<◌, ◌≤◌, length};
ghost use Rattle.std.proofs.lemmas.List.Edits.{sets};
ghost use Rattle.messages.specs.Editions.{major_of, minor_of};
ghost use Rattle.messages.specs.Layout.{bytes_of_object, bytes_of, header_of};
ghost use Rattle.messages.specs.Refusals.{number_in};
ghost use Rattle.messages.specs.Writing.{Written, WrittenAs};

use messages::{Edition, Head, Refusal, bytes_of, shape};

// Structured, and the edition's major and minor.
// Another number than u8::from gives.
fn version_of(edition: Edition) -> u32
    ensures { result ≡ 32768 + major_of edition * 8192 + minor_of edition * 2048 }
{
    match edition {
        Edition::OneZero => 0x8000,
        Edition::TwoZero => 0xA000,
        Edition::TwoOne => 0xA800,
    }
}

// The first object: the version, and what the head says.
// It is made of two values, so no From.
fn header_of(edition: Edition, head: Head) -> u32
    requires { (head.command < 32) × (head.kind < 4) × (head.position < 8) }
    ensures { result ≡ header_of edition head }
{
    (head.svid as u32) * 65536
        + version_of(edition)
        + (head.position as u32) * 256
        + (head.kind as u32) * 64
        + (head.command as u32)
}

// The whole buffer is lent with a place in it, since the clauses say what becomes of the whole.
fn put_object(out: &mut [u8], at: usize, object: u32)
    requires { at + 4 ≤ length out.old }
    ensures { out.new ≡ sets out.old at (bytes_of_object object) }
{
    out[at..at + 4].copy_from_slice(&bytes_of(object));
}

// The objects behind the header.
fn put_objects(out: &mut [u8], objects: &[u32])
    requires { 4 + length objects.now * 4 ≤ length out.old }
    ensures { out.new ≡ sets out.old 4 (bytes_of objects.now) }
{
    for (i, object) in objects.iter().enumerate() {
        put_object(out, 4 + i * 4, *object);
    }
}

// Refused 5 for a shape that is not one of the table's, then 11 for a buffer that is too short.
pub fn write(edition: Edition, head: Head, objects: &[u32], out: &mut [u8]) -> Result<(), Refusal>
    ensures { Written edition (record { head = head; objects = objects.now }) out.old (number_in result) out.new }
{
    let n = objects.len();
    if 6 < n {
        return Err(Refusal::WrongShape);
    }
    if !shape(head, (n + 1) as u8) {
        return Err(Refusal::WrongShape);
    }
    if out.len() < n * 4 + 4 {
        return Err(Refusal::TooShort);
    }
    put_object(out, 0, header_of(edition, head));
    put_objects(out, objects);
    Ok(())
}

// At the edition that a number names: 10, 20 or 21. Any other is refused 5.
pub fn write_numbered(
    edition: u8,
    head: Head,
    objects: &[u32],
    out: &mut [u8],
) -> Result<(), Refusal>
    ensures { WrittenAs edition (record { head = head; objects = objects.now }) out.old (number_in result) out.new }
{
    write(Edition::try_from(edition)?, head, objects, out)
}
