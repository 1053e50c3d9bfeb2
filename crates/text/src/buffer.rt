// A line of output, built in fixed memory, so that one call writes it.
ghost use Rattle.std.specs.Prelude.{◌≤◌};

// What the line says are the bytes before `end`.
#[derive(Clone, Copy)]
pub struct Line<const N: usize> {
    pub(crate) bytes: [u8; N],
    pub(crate) end: usize,
    ghost within: { end ≤ N },
}
