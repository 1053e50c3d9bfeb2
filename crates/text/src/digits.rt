// The decimal digits of a number, written from the last to the first.
ghost use Rattle.std.specs.Prelude.{◌≡◌, ◌+◌, length, drop};
ghost use Rattle.std.specs.Fmt.{decimal};

// A number below 2 ^ 64 has at most so many.
pub(crate) const MOST_DIGITS: usize = 20;

// They end where the array does; gives where they start. The base is a constant, so each division is a multiplication.
pub(crate) fn put_digits(number: u64, digits: &mut [u8; MOST_DIGITS]) -> usize
    ensures start { result + length (decimal number) ≡ 20 }
    ensures written { drop result digits.new ≡ decimal number }
{
    let mut rest = number;
    let mut at = MOST_DIGITS;
    while 10 <= rest {
        at -= 1;
        digits[at] = b'0' + (rest % 10) as u8;
        rest /= 10;
    }
    at -= 1;
    digits[at] = b'0' + rest as u8;
    at
}
