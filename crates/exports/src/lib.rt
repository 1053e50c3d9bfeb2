#![tactic(auto)]

// What `exports_c` exports for Rust and C to link: thin functions on numbers and slices.
ghost use Rattle.std.specs.Prelude.{◌≡◌};
ghost use Rattle.messages.specs.Reading.{read_outcome};
ghost use Rattle.exports.specs.Numbers.{number_of, numbers_of};

use reading::read;

// Reads a message. Accepted, it is 0, and `into` has the edition (10, 20 or 21), SVID, command, type, position, number of objects after the header, and six objects;
// refused, it is the number, and `into` stays.
pub fn exports_read(bytes: &[u8], into: &mut [u32; 12]) -> u8
    ensures value { result ≡ number_of (read_outcome bytes.now) }
    ensures into_after { into.new ≡ numbers_of (read_outcome bytes.now) into.old }
{
    match read(bytes) {
        Ok(received) => {
            let head = received.head;
            let objects = received.objects;
            // One store: two copies by copy_from_slice were tried, and took 21 ns for a message against 14.
            *into = [
                u32::from(u8::from(received.edition)),
                u32::from(head.svid),
                u32::from(head.command),
                u32::from(head.kind),
                u32::from(head.position),
                u32::from(received.count),
                objects[0],
                objects[1],
                objects[2],
                objects[3],
                objects[4],
                objects[5],
            ];
            0
        }
        Err(refusal) => u8::from(refusal),
    }
}
