// Standard input in blocks, so that one call of the C library reads many events.
ghost use Rattle.std.specs.Prelude.{◌≡◌, ℕ, ◌-◌, ◌<◌, ◌≤◌, List, [], ◌++◌, length, take, drop};

use crate::input::STDIN;
use std::marker::Model;

#[derive(Drop)]
pub struct Block<const N: usize> {
    bytes: [u8; N],
    start: usize,
    end: usize,
    // Whether the input ended behind these bytes.
    // The bytes stay when it ends, so it is no Option of them.
    ended: bool,
}

// Clauses see the bytes from `start` to `end`, which are read and not yet taken.
impl<const N: usize> Model for Block<N> {
    ghost Value = { List ℕ };

    ghost view = { λ block. take (block.end - block.start) (drop block.start block.bytes) };

    ghost invariant = { λ block. (block.start ≤ block.end) × (block.end ≤ N) };
}

impl<const N: usize> Block<N> {
    // Nothing is read yet.
    pub fn new() -> Self
        ensures { result ≡ [] }
    {
        Block {
            bytes: [0; N],
            start: 0,
            end: 0,
            ended: false,
        }
    }

    pub fn unread(&self) -> &[u8]
        ensures { result.now ≡ self.now }
    {
        let bytes = &self.bytes[..];
        &bytes[self.start..self.end]
    }

    // Takes the first of the unread bytes, or none where there are fewer.
    pub fn take(&mut self, count: usize)
        ensures taken { count ≤ length self.old → self.new ≡ drop count self.old }
        ensures kept { length self.old < count → self.new ≡ self.old }
    {
        if count <= self.end - self.start {
            self.start += count;
        }
    }

    // Reads on where fewer bytes are unread than wanted, unless the input has ended.
    pub fn refill(&mut self, wanted: usize)
        ensures { (more : List ℕ) × (self.new ≡ self.old ++ more) }
    {
        let unread = self.end - self.start;
        if self.ended || wanted <= unread {
            return;
        }
        let bytes = &mut self.bytes[..];
        bytes.copy_within(self.start..self.end, 0);
        self.end = unread + io::read_full(STDIN, &mut bytes[unread..]);
        self.start = 0;
        self.ended = self.end < N;
    }
}
