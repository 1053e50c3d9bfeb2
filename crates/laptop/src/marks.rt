// Entered modes: a set of six bits for each held SVID.
ghost use Rattle.std.specs.Prelude.{◌≡◌, ◌-◌};
ghost use Rattle.std.specs.Int.Bits.{bit_and, bit_or};
ghost use Rattle.laptop.specs.Marks.{six_bits, reported};
ghost use Rattle.laptop.specs.Marks.{named as Marks·named};

use crate::Laptop;
use crate::places::{held_list, place_of};
use messages::item_or;

// The set of what a position names: its own bit, or all six for 7.
#[tactic(auto, unfolding(crate::specs::Marks::named))]
pub fn named(position: u8) -> u8
    ensures { result ≡ Marks·named position }
{
    match position {
        1..=6 => 1 << (position - 1),
        7 => 63,
        _ => 0,
    }
}

// Of a set the low six bits count.
pub fn six_bits(set: u8) -> u8
    ensures { result ≡ six_bits set }
{
    set % 64
}

pub fn marked(set: u8, position: u8) -> u8
    ensures { result ≡ bit_or set (Marks·named position) }
{
    set | named(position)
}

#[tactic(auto, using(crate::proofs::Marking::named_most))]
pub fn unmarked(set: u8, position: u8) -> u8
    ensures { result ≡ bit_and set (63 - Marks·named position) }
{
    set & (63 - named(position))
}

// How many modes of the SVID are entered, 0 if it is not held.
#[tactic(auto, unfolding(crate::specs::Marks::reported))]
pub fn report(laptop: Laptop, svid: u16, held_svids: &[u16; 72], entered: &[u8; 72]) -> u32
    ensures { result ≡ reported laptop.held held_svids.now entered.now svid }
{
    let list = held_list(laptop.held, held_svids);
    let place = place_of(svid, list);
    if place < list.len() {
        six_bits(item_or(entered, place, 0)).count_ones()
    } else {
        0
    }
}
