// The words of a sound file: its identity objects, and the modes of each SVID, put at their places of a run.
ghost use Rattle.std.specs.Prelude.{◌≡◌, ◌+◌, ◌*◌, ◌<◌, ◌≤◌, List, take, drop, get_or, set};
ghost use Rattle.std.proofs.lemmas.List.Edits.{sets};
ghost use Rattle.laws.specs.Padded.{padded};
ghost use Rattle.messages.specs.Layout.{objects_of};
ghost use Rattle.laptop.specs.Catalogue.{Entry};
ghost use Rattle.rebuilding.specs.Putting.{words_from, Standing};
ghost use Rattle.rebuilding.specs.Rebuilding.{modes_into};

use judging::Walk;
use laptop::MODES_EACH;
use reading::object_at;
use records::{MODE_RECORD, OBJECT_BYTES, SVID_RECORD};
use std::array;

// Object i of an identity of so many objects, 0 past them.
fn object_of(body: &[u8], extent: usize, i: usize) -> u32
    ensures { result ≡ get_or (take extent (objects_of body.now)) i 0 }
{
    if i < extent { object_at(body, i) } else { 0 }
}

// The bytes from an offset on, none where there are no more.
fn behind(bytes: &[u8], at: usize) -> &[u8]
    ensures { result.now ≡ drop at bytes.now }
{
    &bytes[at.min(bytes.len())..]
}

// The word at an offset, 0 where the bytes end before it does.
fn word_at(bytes: &[u8], at: usize) -> u32
    ensures { result ≡ get_or (objects_of (drop at bytes.now)) 0 0 }
{
    object_at(behind(bytes, at), 0)
}

// An identity's objects stand behind its kind.
pub(crate) fn objects_in(bytes: &[u8], extent: usize) -> [u32; 6]
    ensures { result ≡ padded (take extent (objects_of (drop 1 bytes.now))) }
{
    let body = behind(bytes, 1);
    array::from_fn(|i| object_of(body, extent, i))
}

// A test and no get_mut: what that gives past the end does not say that the run stays, so the proof did not close.
fn put_word(run: &mut [u32], place: usize, word: u32)
    ensures { run.new ≡ set run.old place word }
{
    if place < run.len() {
        run[place] = word;
    }
}

// Puts the words of so many mode records, from an offset of the bytes on, at a place of the run.
fn put_words(bytes: &[u8], at: usize, number: usize, run: &mut [u32], place: usize)
    requires { (at < 1000000) × (number < 256) × (place < 1000) }
    ensures { run.new ≡ sets run.old place (words_from bytes.now at number) }
{
    for i in 0..number {
        put_word(run, place + i, word_at(bytes, at + i * MODE_RECORD + 1));
    }
}

// Puts the modes of each SVID of a sound file at its places of the run.
// The way over the SVIDs is that of `place_in` in stretches, to another end.
pub(crate) fn put_modes(bytes: &[u8], walk: Walk, numbers: &[u8; 72], run: &mut [u32])
    requires { (walk.extent ≤ 6) × (walk.count ≤ 72) }
    ensures { (entries : List Entry) → Standing entries bytes.now walk numbers.now →
        run.new ≡ modes_into run.old 0 entries }
{
    let mut at = 1 + walk.extent * OBJECT_BYTES;
    for i in 0..walk.count {
        let modes_at = at + SVID_RECORD;
        let number = usize::from(numbers[i]);
        put_words(bytes, modes_at, number, run, i * MODES_EACH);
        at = modes_at + number * MODE_RECORD;
    }
}
