// Answers that gather the list: Identity and SVIDs.
ghost use Rattle.std.specs.Prelude.{◌≡◌, List, ℕ, ◌+◌, ◌*◌, ◌<◌, ◌≤◌, length, take, get_or};
ghost use Rattle.std.proofs.lemmas.List.Edits.{sets};
ghost use Rattle.gathering.specs.Gathering.{OpeningIs, hear_identity, GatheringIs, gathering, unless_last, full_page, six_halves, none_gathered, hear_svids};
ghost use Rattle.gathering.specs.Gathering.{take_page as Gathering·takePage};
ghost use Rattle.laptop.specs.Calls.{accepted_with};
ghost use Rattle.laptop.specs.State.{ended, gathered_to};
ghost use Rattle.laptop.specs.Step.{stepped};
ghost use Rattle.laptop.specs.State.{opened as State·opened};
ghost use Rattle.laptop.specs.State.{counted as State·counted};
ghost use Rattle.laptop.specs.declared.Candidate.TheVariants.{Done};
ghost use Rattle.laptop.specs.declared.Told.TheVariants.{Nothing};

use crate::MOST_PAGES;
use laptop::{Accepted, Candidate, Laptop, Refused, Size, Told, accept, dropped, ended, refuse};
use messages::{ACK, BUSY, Edition, OURS, Refusal, first, lower};
use taking::Verdict;

fn opened(extent: u8, edition: Edition, laptop: Laptop) -> Laptop
    ensures { result ≡ State·opened extent edition laptop }
{
    Laptop {
        wait: None,
        candidate: Candidate::Open,
        gathered: Size { extent, count: 0 },
        stored: 0,
        edition,
        ..laptop
    }
}

// An ACK opens an empty list, and the lower of its edition and ours is used from now on; NAK or BUSY leaves no
// candidate.
// It takes the parts of the message that its definition names, and no whole one; so do hear_svids and hear_modes.
#[tactic(auto, unfolding(crate::specs::Gathering::hear_identity))]
pub fn hear_identity(
    laptop: Laptop,
    edition: Edition,
    kind: u8,
    count: u8,
    objects: &[u32; 6],
    svids: &mut [u16; 72],
    identity: &mut [u32; 6],
) -> Result<Accepted, Refused>
    ensures { OpeningIs (hear_identity laptop edition kind count objects.now svids.old identity.old) (stepped result) svids.new identity.new }
{
    if kind != ACK {
        return accept(Told::Nothing, dropped(laptop));
    }
    *svids = [0u16; 72];
    *identity = *objects;
    accept(Told::Nothing, opened(count, lower(edition, OURS), laptop))
}

// The page count goes up by 1, and stays at the greatest number there is.
#[tactic(auto, using(crate::proofs::Listing::counted_is))]
fn counted(laptop: Laptop) -> Laptop
    ensures { result ≡ State·counted laptop }
{
    Laptop {
        pages: laptop.pages.saturating_add(1),
        ..laptop
    }
}

fn gathered_to(candidate: Candidate, count: u8, laptop: Laptop) -> Laptop
    ensures { result ≡ gathered_to candidate count laptop }
{
    Laptop {
        wait: None,
        candidate,
        gathered: Size {
            count,
            ..laptop.gathered
        },
        ..laptop
    }
}

// The value at a place of the values of six objects: two each, the first in the high half.
#[tactic(auto, using(crate::proofs::Listing::value_is))]
fn value_at(objects: [u32; 6], place: usize) -> u16
    requires { place < 12 }
    ensures { result ≡ get_or (six_halves objects) place 0 }
{
    let object = objects[place / 2];
    if place % 2 == 0 {
        (object / 65536) as u16
    } else {
        (object % 65536) as u16
    }
}

// The values of six objects, two each.
fn values_of(objects: [u32; 6]) -> [u16; 12]
    ensures { result ≡ six_halves objects }
{
    let mut values = [0u16; 12];
    for place in 0..12 {
        values[place] = value_at(objects, place);
    }
    values
}

// Puts values behind the first n.
fn put_values(svids: &mut [u16; 72], n: usize, values: &[u16])
    requires { n + length values.now ≤ 72 }
    ensures { svids.new ≡ sets svids.old n values.now }
{
    svids[n..n + values.len()].copy_from_slice(values);
}

// A repeat adds nothing; as the 200th page it is refused.
#[tactic(auto, unfolding(crate::specs::Gathering::unless_last))]
fn take_repeat(laptop: Laptop) -> Result<Accepted, Refused>
    ensures { (svids : List ℕ) → gathering (stepped result) svids ≡ unless_last laptop svids (gathering (accepted_with Nothing (ended laptop)) svids) }
{
    if MOST_PAGES <= laptop.pages {
        return refuse(Refusal::Endless, dropped(laptop));
    }
    accept(Told::Nothing, ended(laptop))
}

// A full page leaves the list open; as the 200th page it is refused.
#[tactic(auto, unfolding(crate::specs::Gathering::unless_last))]
fn take_full(
    laptop: Laptop,
    n: usize,
    values: &[u16],
    svids: &mut [u16; 72],
) -> Result<Accepted, Refused>
    requires { (length values.now ≡ 12) × (n + length values.now ≤ 72) }
    ensures { gathering (stepped result) svids.new ≡ full_page laptop svids.old values.now n }
{
    if MOST_PAGES <= laptop.pages {
        return refuse(Refusal::Endless, dropped(laptop));
    }
    put_values(svids, n, values);
    accept(
        Told::Nothing,
        gathered_to(Candidate::Open, (n + 12) as u8, laptop),
    )
}

// The last page: its first k values end the list.
fn take_end(
    laptop: Laptop,
    n: usize,
    k: u8,
    values: &[u16],
    svids: &mut [u16; 72],
) -> Result<Accepted, Refused>
    requires { (k ≤ length values.now) × (n + k ≤ 72) }
    ensures { gathering (stepped result) svids.new ≡ gathering (accepted_with Nothing (gathered_to Done (n + k) laptop)) (sets svids.old n (take k values.now)) }
{
    put_values(svids, n, first(values, usize::from(k)));
    accept(
        Told::Nothing,
        gathered_to(Candidate::Done, n as u8 + k, laptop),
    )
}

// A page is taken: what it adds is put behind what is gathered, once it is known not to be refused.
#[tactic(auto, unfolding(crate::specs::Gathering::take_page, crate::specs::Gathering::take_as))]
fn take_page(laptop: Laptop, values: &[u16], svids: &mut [u16; 72]) -> Result<Accepted, Refused>
    ensures { GatheringIs (Gathering·takePage laptop svids.old values.now) (stepped result) svids.new }
{
    let list = first(svids, usize::from(laptop.gathered.count));
    let n = list.len();
    match taking::judge(list, values) {
        Verdict::Bad => refuse(Refusal::BadAnswer, dropped(laptop)),
        Verdict::Repeat => take_repeat(laptop),
        Verdict::More => take_full(laptop, n, values, svids),
        Verdict::Ends(k) => take_end(laptop, n, k, values, svids),
    }
}

// Is the list open, and nothing gathered?
#[tactic(auto, unfolding(crate::specs::Gathering::none_gathered))]
fn none_gathered(laptop: Laptop) -> bool
    ensures { result ≡ none_gathered laptop }
{
    laptop.candidate == Candidate::Open && laptop.gathered.count == 0
}

// An ACK is a page; a NAK with nothing gathered makes an empty list, later it is 8; BUSY changes nothing more.
#[tactic(auto, unfolding(crate::specs::Gathering::hear_svids))]
pub fn hear_svids(
    laptop: Laptop,
    kind: u8,
    count: u8,
    objects: &[u32; 6],
    svids: &mut [u16; 72],
) -> Result<Accepted, Refused>
    ensures { GatheringIs (hear_svids laptop kind (take (count * 2) (six_halves objects.now)) svids.old) (stepped result) svids.new }
{
    if kind == ACK {
        let values = values_of(*objects);
        let page = first(&values, usize::from(count) * 2);
        take_page(counted(laptop), page, svids)
    } else if kind == BUSY {
        accept(Told::Nothing, ended(laptop))
    } else if none_gathered(laptop) {
        accept(Told::Nothing, gathered_to(Candidate::Done, 0, laptop))
    } else {
        refuse(Refusal::BadAnswer, dropped(laptop))
    }
}
