// An object among bytes: 32 bits, least significant byte first.
ghost use Rattle.std.specs.Prelude.{◌≡◌, get_or};
ghost use Rattle.messages.specs.Layout.{objects_of};

// Object i, counted from 0; 0 where the bytes end before it does.
pub fn object_at(bytes: &[u8], i: usize) -> u32
    ensures { result ≡ get_or (objects_of bytes.now) i 0 }
{
    if bytes.len() / 4 <= i {
        return 0;
    }
    let at = i * 4;
    // The four bytes by name: first_chunk would give an Option, and None has to be answered though it can't come.
    u32::from_le_bytes([bytes[at], bytes[at + 1], bytes[at + 2], bytes[at + 3]])
}
