// An object as bytes, least significant byte first.
ghost use Rattle.std.specs.Prelude.{◌≡◌};
ghost use Rattle.messages.specs.Layout.{bytes_of_object};

pub fn bytes_of(object: u32) -> [u8; 4]
    ensures { result ≡ bytes_of_object object }
{
    object.to_le_bytes()
}
