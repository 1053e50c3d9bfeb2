#![tactic(auto)]

// The stretch of one SVID: the part of a catalogue's bytes that holds its mode records. Document 02, R-1.
ghost use Rattle.std.specs.Prelude.{List, ◌≡◌, ◌+◌, ◌*◌, ◌<◌, ◌≤◌, length};
ghost use Rattle.laptop.specs.Catalogue.{Entry};
ghost use Rattle.judging.specs.Judging.{judgement_of};
ghost use Rattle.stretches.specs.Stretches.{NotedAs, place_in, stretch_in, PartOf, Stretched};
ghost use Rattle.stretches.specs.Shown.{place_as, stretch_as};

use judging::{Fault, Walk, judge};
use messages::Refusal;
use records::{MODE_RECORD, OBJECT_BYTES, SVID_RECORD};

// Where a stretch begins, and how many bytes it has.
// C asks for these numbers alone; `Stretch` has the part of the bytes itself.
#[derive(Clone, Copy)]
pub struct Place {
    pub at: usize,
    pub length: usize,
}

// The SVID among those of a sound file, which the walk has noted with their numbers of modes.
// The way over the SVIDs is that of `put_modes` in rebuilding: a shared one would take what is done there as closures.
fn place_in(svid: u16, walk: Walk, svids: &[u16; 72], numbers: &[u8; 72]) -> Result<Place, Fault>
    requires { (walk.extent ≤ 6) × (walk.count ≤ 72) }
    ensures { (entries : List Entry) → NotedAs entries walk svids.now numbers.now → place_as result ≡ place_in svid (1 + walk.extent * 4) entries }
{
    let mut at = 1 + walk.extent * OBJECT_BYTES;
    for i in 0..walk.count {
        let modes_at = at + SVID_RECORD;
        let number = usize::from(numbers[i]);
        let length = number * MODE_RECORD;
        if svids[i] == svid {
            return Ok(Place {
                at: modes_at,
                length,
            });
        }
        at = modes_at + length;
    }
    let refusal = Refusal::NotHeld;
    Err(Fault { refusal, at: 0 })
}

// Where the mode records of the SVID lie: refused 15 to 18 for the first fault of the file, then 12.
pub fn find_stretch(bytes: &[u8], svid: u16) -> Result<Place, Fault>
    ensures { place_as result ≡ stretch_in (judgement_of bytes.now) svid }
{
    let mut svids = [0; 72];
    let mut numbers = [0; 72];
    let walk = judge(bytes, &mut svids, &mut numbers)?;
    place_in(svid, walk, &svids, &numbers)
}

// What is handed back: that part of the bytes, and where it stands.
#[derive(Clone, Copy)]
pub struct Stretch<'a> {
    pub part: &'a [u8],
    pub at: usize,
}

// That part of the bytes.
fn part_of(bytes: &[u8], place: Place) -> &[u8]
    requires { place.at + place.length ≤ length bytes.now }
    ensures { PartOf bytes.entry (place_as (Ok place)) result }
{
    &bytes[place.at..place.at + place.length]
}

// The run of bytes that holds the mode records of the SVID, as that stretch of the caller's own buffer.
pub fn stretch_of<'a>(bytes: &'a [u8], svid: u16) -> Result<Stretch<'a>, Fault>
    ensures { Stretched bytes.entry svid (stretch_as bytes.entry result) }
{
    let place = find_stretch(bytes, svid)?;
    Ok(Stretch {
        part: part_of(bytes, place),
        at: place.at,
    })
}
