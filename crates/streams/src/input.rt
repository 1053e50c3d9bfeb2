// Reading standard input, and the numbers that its bytes give, low byte first.
use crate::finish::Stop;

// The number of standard input among the open files.
pub const STDIN: i32 = 0;

// The greatest length that a byte gives.
pub const GREATEST: usize = 255;

// Fills the buffer, or says that the input is cut before that.
pub fn fill(buffer: &mut [u8]) -> Result<(), Stop> {
    let wanted = buffer.len();
    if io::read_full(STDIN, buffer) == wanted {
        Ok(())
    } else {
        Err(Stop::Cut)
    }
}

// As `fill`, of so many bytes.
pub fn read_bytes<const N: usize>() -> Result<[u8; N], Stop> {
    let mut bytes = [0; N];
    fill(&mut bytes)?;
    Ok(bytes)
}

// The next byte, unless the input ends before it.
pub fn read_byte() -> Option<u8> {
    let [byte] = read_bytes::<1>().ok()?;
    Some(byte)
}

pub fn read_half() -> Result<u16, Stop> {
    Ok(u16::from_le_bytes(read_bytes()?))
}

fn read_word() -> Result<u32, Stop> {
    Ok(u32::from_le_bytes(read_bytes()?))
}

// Each number is read by itself, since no buffer of bytes has room for any number of them.
fn fill_each<T: Drop, F: Fn() -> Result<T, Stop>>(numbers: &mut [T], read: F) -> Result<(), Stop>
    requires { F.IsAlwaysCallable read }
{
    for number in numbers.iter_mut() {
        *number = read()?;
    }
    Ok(())
}

// As `fill`, with two bytes for each half.
pub fn fill_halves(halves: &mut [u16]) -> Result<(), Stop> {
    fill_each(halves, read_half)
}

// As `fill`, with four bytes for each word.
pub fn fill_words(words: &mut [u32]) -> Result<(), Stop> {
    fill_each(words, read_word)
}
