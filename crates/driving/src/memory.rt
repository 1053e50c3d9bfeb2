// What the laptop end's owner lends the calls for a side.
ghost use Rattle.std.specs.Prelude.{◌≡◌, ◌≤◌, replicate};

// More words than a run needs.
pub const RUN: usize = 440;

// What the calls for a side are lent; the names are those of the laptop's `Memory`. Of the runs so many words are lent.
// Each array stands by itself, as the port's calls are lent it.
#[derive(Clone, Copy)]
pub struct Memory {
    pub svids: [u16; 72],
    pub modes: [u8; 72],
    pub identity: [u32; 6],
    pub run: [u32; RUN],
    pub held_svids: [u16; 72],
    pub held_modes: [u8; 72],
    pub held_identity: [u32; 6],
    pub held_run: [u32; RUN],
    pub entered: [u8; 72],
    pub run_words: usize,
    pub held_words: usize,
    ghost run_within: { run_words ≤ 440 },
    ghost held_within: { held_words ≤ 440 },
}

impl Memory {
    // Runs that are full of a word.
    pub(crate) fn new(word: u32) -> Memory
        ensures { result.run ≡ replicate 440 word }
    {
        Memory {
            svids: [0; 72],
            modes: [0; 72],
            identity: [0; 6],
            run: [word; RUN],
            held_svids: [0; 72],
            held_modes: [0; 72],
            held_identity: [0; 6],
            held_run: [word; RUN],
            entered: [0; 72],
            run_words: RUN,
            held_words: RUN,
        }
    }
}
