// The digest of the lines: FNV-1a of 32 bits, so that a line can say what a whole buffer or run contains.
const OFFSET: u32 = 0x811C9DC5;

const PRIME: u32 = 0x01000193;

fn of_more(digest: u32, bytes: &[u8]) -> u32 {
    bytes.iter().fold(digest, |digest, byte| {
        (digest ^ u32::from(*byte)).wrapping_mul(PRIME)
    })
}

pub fn of_bytes(bytes: &[u8]) -> u32 {
    of_more(OFFSET, bytes)
}

// Of the halves' bytes, low byte first.
// One function of both was tried: the borrow checker does not cover a Fn bound that names a const parameter.
pub fn of_halves(halves: &[u16]) -> u32 {
    halves.iter().fold(OFFSET, |digest, half| of_more(digest, &half.to_le_bytes()))
}

// Of the words' bytes, low byte first.
pub fn of_words(words: &[u32]) -> u32 {
    words.iter().fold(OFFSET, |digest, word| of_more(digest, &word.to_le_bytes()))
}
