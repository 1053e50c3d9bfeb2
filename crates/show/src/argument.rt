// The word for what is to be shown: an SVID in hex.
const MOST_DIGITS: usize = 4;

fn svid_in(digits: &[u8]) -> Option<u16> {
    let mut svid = 0;
    for byte in digits {
        let digit = char::from(*byte).to_digit(16)?;
        svid = (svid << 4) | (digit as u16);
    }
    Some(svid)
}

fn without_prefix(text: &[u8]) -> &[u8] {
    match text {
        [b'0', b'x' | b'X', digits @ ..] => digits,
        _ => text,
    }
}

// An SVID is one to four hex digits of either case, and may have 0x or 0X before them.
pub fn svid_asked(text: &[u8]) -> Option<u16> {
    let digits = without_prefix(text);
    match digits.len() {
        1..=MOST_DIGITS => svid_in(digits),
        _ => None,
    }
}
