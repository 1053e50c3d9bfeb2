// The line of the programs that drive the laptop end.

// Longer than each of their lines.
const LONGEST: usize = 200;

pub type Line = text::line::Line<LONGEST>;
