// The line that an event gets: the number of its stream, its own in that stream, its side, whether it is permitted, what its call led to, how both ends of that
// side's link stand then, and how the other side's laptop stands.
use crate::system::Ends;
use driving::digest::of_bytes;
use driving::fields::{add_candidate, add_held, add_outcome, add_side, begin_line};
use driving::line::Line;
use driving::owning::{Owner, other};
use laptop::Laptop;
use linking::far_end::FarEnd;
use messages::first;
use port::Side;

const LONGEST_CATALOGUE: usize = 2402;

fn add_event(line: &mut Line, far_end: &FarEnd) {
    if far_end.is_permitted {
        line.text(b" permitted");
    } else {
        line.nothing();
    }
    match far_end.outcome {
        Some(outcome) => add_outcome(line, outcome),
        None => line.nothing(),
    }
}

fn add_laptop(line: &mut Line, laptop: Laptop) {
    line.field(laptop.pages);
    add_candidate(line, laptop);
    add_held(line, laptop.held);
}

// The digest of the bytes of the side's held catalogue.
fn add_catalogue(line: &mut Line, owner: &Owner, side: Side) {
    let mut buffer = [0; LONGEST_CATALOGUE];
    match owner.write_held(side, &mut buffer) {
        Ok(length) => line.spaced_word(of_bytes(first(&buffer, usize::from(length)))),
        Err(_) => line.nothing(),
    }
}

pub fn print_event(stream: u64, number: u64, side: Side, ends: &Ends) {
    let far_end = ends.far_end(side);
    let laptop = ends.owner.laptop(side);
    let other_laptop = ends.owner.laptop(other(side));
    let mut line = begin_line(stream, number);
    add_side(&mut line, side);
    add_event(&mut line, far_end);
    add_laptop(&mut line, laptop);
    add_catalogue(&mut line, &ends.owner, side);
    line.field(far_end.dock.page);
    line.field(far_end.lost);
    line.edition(u8::from(laptop.edition));
    line.edition(u8::from(far_end.dock.edition));
    add_laptop(&mut line, other_laptop);
    line.edition(u8::from(other_laptop.edition));
    line.print_line();
}
