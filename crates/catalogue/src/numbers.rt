// Numbers and words as bytes, from a place of a lent buffer on; each gives the place behind them.
ghost use Rattle.std.specs.Prelude.{◌≡◌, ◌+◌, ◌≤◌, length};
ghost use Rattle.catalogue.specs.Records.{low_first, word_number, words_bytes, Put};

pub(crate) const MODE_SIZE: usize = 5;

pub(crate) const OBJECT_SIZE: usize = 4;

// As SVID_KIND, a number that is written and met in one place.
const MODE_KIND: u64 = 0x20;

// A number of so many bytes, the low byte first.
// The whole buffer is lent with a place in it, since the clauses say what becomes of the whole.
pub(crate) fn put_number(out: &mut [u8], at: usize, number: u64, size: usize) -> usize
    requires few { size ≤ 8 }
    requires room { at + size ≤ length out.old }
    ensures { Put out.old at (low_first size number) result out.new }
{
    let end = at + size;
    out[at..end].copy_from_slice(&number.to_le_bytes()[..size]);
    end
}

// A mode's kind stands before its word.
// Its size says which it is, so it is no conversion.
fn word_number(word: u32, size: usize) -> u64
    ensures { result ≡ word_number size word }
{
    if size == MODE_SIZE {
        MODE_KIND + u64::from(word) * 256
    } else {
        u64::from(word)
    }
}

pub(crate) fn put_words(out: &mut [u8], at: usize, words: &[u32], size: usize) -> usize
    requires few { size ≤ 8 }
    requires room { at + length (words_bytes size words.now) ≤ length out.old }
    ensures { Put out.old at (words_bytes size words.now) result out.new }
{
    let mut place = at;
    for word in words {
        place = put_number(out, place, word_number(*word, size), size);
    }
    place
}
