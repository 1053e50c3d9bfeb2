// The held catalogue's list, an SVID's place in it, and how many modes stand at a place.
ghost use Rattle.laptop.specs.Marks.{place_of};
ghost use Rattle.std.specs.Prelude.{◌≡◌, ◌==◌};
ghost use Rattle.std.specs.List.{position};
ghost use Rattle.laptop.specs.Catalogue.{modes_number, held_list};

use crate::Size;
use messages::{first, item_or};

// The SVIDs of the held catalogue, none where nothing is held.
pub fn held_list(held: Option<Size>, held_svids: &[u16]) -> &[u16]
    ensures { result.now ≡ held_list held held_svids.now }
{
    first(held_svids, held.map_or(0, |size| usize::from(size.count)))
}

fn found_at(svid: u16, list: &[u16]) -> Option<usize>
    ensures { result ≡ position (λ held. held == svid) list.now }
{
    list.iter().position(|held| *held == svid)
}

// The place of the SVID, or the list's length where it is not in it.
pub fn place_of(svid: u16, list: &[u16]) -> usize
    ensures { result ≡ place_of svid list.now }
{
    found_at(svid, list).unwrap_or(list.len())
}

// How many modes the SVID at a place has: more than six count as six.
#[tactic(auto, unfolding(crate::specs::Catalogue::modes_number))]
pub fn modes_number(modes: &[u8], place: usize) -> u8
    ensures { result ≡ modes_number modes.now place }
{
    item_or(modes, place, 0).min(6)
}
