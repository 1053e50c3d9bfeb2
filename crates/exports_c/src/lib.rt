#![tactic(auto)]

// `exports` for C to link, and for Rust: the same function under its name, with the same clauses.
ghost use Rattle.std.specs.Prelude.{◌≡◌};
ghost use Rattle.messages.specs.Reading.{read_outcome};
ghost use Rattle.exports.specs.Numbers.{number_of, numbers_of};

// Reads a message. Accepted, it is 0, and `into` has the edition (10, 20 or 21), SVID, command, type, position, number of objects after the header, and six objects;
// refused, it is the number, and `into` stays.
#[unsafe(no_mangle)]
pub extern "C" fn exports_read(bytes: &[u8], into: &mut [u32; 12]) -> u8
    ensures value { result ≡ number_of (read_outcome bytes.now) }
    ensures into_after { into.new ≡ numbers_of (read_outcome bytes.now) into.old }
{
    exports::exports_read(bytes, into)
}
