// The program's lines.
use files::naming::{STDERR, print_named};
use files::verdict::{print_counts, print_fault};
use judging::Fault;
use mending::Kept;
use streams::finish::STDOUT;

pub fn print_usage() {
    io::write_all(STDOUT, b"usage: mend IN OUT\n");
}

pub fn print_unwritten(out: &[u8]) {
    print_named(b"cannot write ", out);
}

// The system is not asked, so the reason is our own.
pub fn print_no_name(out: &[u8]) {
    io::write_all(STDERR, b"OUT must be the name of a file\n");
    print_unwritten(out);
}

pub fn print_sound() {
    io::write_all(STDOUT, b"sound\n");
}

pub fn print_partial(fault: Fault, kept: Kept) {
    print_fault(b"fault ", fault.refusal, fault.at);
    print_counts(b"kept ", kept.svids, kept.modes);
    io::write_all(STDOUT, b"partial\n");
}
