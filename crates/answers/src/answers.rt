// Answers about modes: Modes, Enter and Exit.
ghost use Rattle.std.specs.Prelude.{◌≡◌, ◌+◌, ◌≤◌, length, get_or, take, set};
ghost use Rattle.std.proofs.lemmas.List.Edits.{sets};
ghost use Rattle.answers.specs.Answers.{StoringIs, MarkingIs, store_modes, hear_modes, declined_as, hear_mode};
ghost use Rattle.laptop.specs.Marks.{marked_by};
ghost use Rattle.laptop.specs.State.{stored_to};
ghost use Rattle.laptop.specs.Step.{stepped};

use laptop::{
    Accepted, Laptop, MODES_EACH, Refused, Told, accept, dropped, ended, held_list, marked,
    place_of, refuse, unmarked,
};
use messages::{ACK, BUSY, ENTER, NAK, Refusal, Request, first};

fn stored_to(stored: u8, laptop: Laptop) -> Laptop
    ensures { result ≡ stored_to stored laptop }
{
    Laptop {
        wait: None,
        stored,
        ..laptop
    }
}

// A word past the end of the run is left out.
// A test, as in `put_word` of rebuilding, where get_mut was tried.
#[tactic(auto, using(crate::proofs::Storing::put_steps))]
fn put_word(run: &mut [u32], place: usize, word: u32)
    ensures { run.new ≡ set run.old place word }
{
    if place < run.len() {
        run[place] = word;
    }
}

// Puts words into the run, from a place on.
fn put_words(run: &mut [u32], at: usize, words: &[u32])
    requires { at + length words.now ≤ 432 }
    ensures { run.new ≡ sets run.old at words.now }
{
    for (i, word) in words.iter().enumerate() {
        put_word(run, at + i, *word);
    }
}

// Stores the modes of the first SVID without them.
#[tactic(auto, unfolding(crate::specs::Answers::store_modes))]
fn store_modes(
    laptop: Laptop,
    words: &[u32],
    modes: &mut [u8; 72],
    run: &mut [u32],
) -> Result<Accepted, Refused>
    requires { length words.now ≤ 6 }
    ensures { StoringIs (store_modes laptop words.now modes.old run.old) (stepped result) modes.new run.new }
{
    let place = usize::from(laptop.stored);
    if 72 <= place {
        return refuse(Refusal::BadAnswer, dropped(laptop));
    }
    put_words(run, place * MODES_EACH, words);
    modes[place] = words.len() as u8;
    accept(Told::Nothing, stored_to(laptop.stored + 1, laptop))
}

// An ACK is stored; NAK is 8; BUSY changes nothing more.
#[tactic(auto, unfolding(crate::specs::Answers::hear_modes))]
pub fn hear_modes(
    laptop: Laptop,
    kind: u8,
    count: u8,
    objects: &[u32; 6],
    modes: &mut [u8; 72],
    run: &mut [u32],
) -> Result<Accepted, Refused>
    ensures { StoringIs (hear_modes laptop kind (take count objects.now) modes.old run.old) (stepped result) modes.new run.new }
{
    if kind == BUSY {
        accept(Told::Nothing, ended(laptop))
    } else if kind == ACK {
        store_modes(laptop, first(objects, usize::from(count)), modes, run)
    } else {
        refuse(Refusal::BadAnswer, dropped(laptop))
    }
}

// No `put_word`: what it writes depends on what stands there.
#[tactic(auto, using(crate::proofs::Storing::put_steps), unfolding(laptop::specs::Marks::marked_by))]
fn put_mark(entered: &mut [u8], place: usize, command: u8, position: u8)
    ensures { entered.new ≡ set entered.old place (marked_by command position (get_or entered.old place 0)) }
{
    if place < entered.len() {
        let set = entered[place];
        entered[place] = if command == ENTER {
            marked(set, position)
        } else {
            unmarked(set, position)
        };
    }
}

// What policy is told of a request that NAK or BUSY declined.
#[tactic(auto, unfolding(crate::specs::Answers::declined_as))]
fn declined_as(kind: u8, request: Request) -> Told
    ensures { result ≡ declined_as kind request }
{
    if kind == NAK {
        Told::Nak(request)
    } else {
        Told::Busy(request)
    }
}

// An ACK marks or unmarks the mode; NAK or BUSY is told to policy and changes no mark.
#[tactic(auto, unfolding(crate::specs::Answers::hear_mode, laptop::specs::Marks::marks_after))]
pub fn hear_mode(
    laptop: Laptop,
    kind: u8,
    request: Request,
    held_svids: &[u16; 72],
    entered: &mut [u8],
) -> Result<Accepted, Refused>
    ensures { MarkingIs (hear_mode laptop kind request held_svids.now entered.old) (stepped result) entered.new }
{
    if kind != ACK {
        return accept(declined_as(kind, request), ended(laptop));
    }
    let list = held_list(laptop.held, held_svids);
    let place = place_of(request.svid, list);
    if place < list.len() {
        put_mark(entered, place, request.command, request.position);
    }
    accept(Told::Nothing, ended(laptop))
}
