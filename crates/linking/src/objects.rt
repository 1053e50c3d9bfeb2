// Objects behind a header, at most as many as a message has room for.
ghost use Rattle.std.specs.Prelude.{◌≡◌, replicate};

use laptop::MODES_EACH;
use messages::first;
use streams::finish::Stop;
use streams::input::{fill_words, read_byte};

// `first` takes any count, so nothing has to hold of this one.
#[derive(Clone, Copy)]
pub struct Objects {
    pub words: [u32; MODES_EACH],
    pub count: usize,
}

impl Objects {
    // So many times the word.
    pub fn of(word: u32, count: usize) -> Objects
        ensures words { result.words ≡ replicate 6 word }
        ensures count { result.count ≡ count }
    {
        Objects {
            words: [word; MODES_EACH],
            count,
        }
    }

    pub(crate) fn none() -> Objects {
        Objects::of(0, 0)
    }

    pub(crate) fn words(&self) -> &[u32] {
        first(&self.words, self.count)
    }
}

// A byte says how many numbers follow it, which go to the first of those that are lent; nothing where they are cut or
// too many.
pub(crate) fn read_some<T, F: FnOnce(&mut [T]) -> Result<(), Stop>>(
    numbers: &mut [T],
    fill: F,
) -> Option<&[T]>
    requires { F.IsAlwaysCallable fill }
{
    let count = usize::from(read_byte()?);
    let read = numbers.get_mut(..count)?;
    fill(read).ok()?;
    Some(read)
}

pub(crate) fn read_objects() -> Option<Objects> {
    let mut words = [0; MODES_EACH];
    let count = read_some(&mut words, fill_words)?.len();
    Some(Objects { words, count })
}
