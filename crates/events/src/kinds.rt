// The kinds of event, and what a kind fixes.
ghost use Rattle.std.specs.Prelude.{◌≡◌, ◌≤◌};
ghost use Rattle.events.specs.Events.{is_message, names_mode, says_side, is_partners, side_of, without_side, is_known, body_length};

use port::Side;

// Any byte may come off the input, and each of these is met in one pattern: `Call` is their enum.
const MOST_OBJECTS: u8 = 7;

const OBJECT_BYTES: usize = 4;

const MODE_BYTES: usize = 3;

// The most bytes of an event: a kind, and seven objects.
pub const LONGEST_EVENT: usize = 29;

// A cable's kind is a partner's with this added.
const CABLE: u8 = 0x80;

pub(crate) const NEXT: u8 = 0x40;

pub(crate) const START_OVER: u8 = 0x41;

pub(crate) const DROP: u8 = 0x42;

pub(crate) const RESPONSE_TIMER: u8 = 0x43;

pub(crate) const ENTRY_TIMER: u8 = 0x44;

pub(crate) const EXIT_TIMER: u8 = 0x45;

const PROTOCOL_ERROR: u8 = 0x46;

pub(crate) const ENTER: u8 = 0x47;

pub(crate) const EXIT: u8 = 0x48;

// Of a partner's kind.
#[tactic(auto, unfolding(crate::specs::Events::is_message))]
pub(crate) fn is_message(kind: u8) -> bool
    ensures { result ≡ is_message kind }
{
    matches!(kind, 1..=MOST_OBJECTS)
}

#[tactic(auto, unfolding(crate::specs::Events::names_mode))]
fn names_mode(kind: u8) -> bool
    ensures { result ≡ names_mode kind }
{
    matches!(kind, ENTER..=EXIT)
}

// Is a partner's kind one that the cable has too?
#[tactic(auto, unfolding(crate::specs::Events::says_side))]
fn says_side(kind: u8) -> bool
    ensures { result ≡ says_side kind }
{
    is_message(kind) || matches!(kind, NEXT..=DROP) || names_mode(kind)
}

#[tactic(auto, unfolding(crate::specs::Events::is_partners))]
fn is_partners(kind: u8) -> bool
    ensures { result ≡ is_partners kind }
{
    says_side(kind) || matches!(kind, RESPONSE_TIMER..=PROTOCOL_ERROR)
}

// No From: an impl would have to stand in `port`, which knows no kinds.
#[tactic(auto, unfolding(crate::specs::Events::side_of))]
pub fn side_of(kind: u8) -> Side
    ensures { result ≡ side_of kind }
{
    if kind < CABLE {
        Side::Partner
    } else {
        Side::Cable
    }
}

// The partner's kind that a kind is, or is with its side added.
#[tactic(auto, unfolding(crate::specs::Events::without_side))]
pub fn without_side(kind: u8) -> u8
    ensures { result ≡ without_side kind }
{
    if kind < CABLE { kind } else { kind - CABLE }
}

#[tactic(auto, unfolding(crate::specs::Events::is_known))]
pub(crate) fn is_known(kind: u8) -> bool
    ensures { result ≡ is_known kind }
{
    if kind < CABLE {
        is_partners(kind)
    } else {
        says_side(without_side(kind))
    }
}

// How many bytes the body of a kind has, 0 where the kind is unknown.
#[tactic(auto, unfolding(crate::specs::Events::body_length, crate::specs::Events::partners_length, crate::specs::Events::is_message))]
pub fn body_length(kind: u8) -> usize
    ensures { (result ≡ body_length kind) × (result ≤ 28) }
{
    let partners = without_side(kind);
    if is_message(partners) {
        usize::from(partners) * OBJECT_BYTES
    } else if names_mode(partners) {
        MODE_BYTES
    } else {
        0
    }
}
