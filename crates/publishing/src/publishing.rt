// Publishing: the candidate replaces the held catalogue at once.
ghost use Rattle.std.specs.Prelude.{◌≡◌, ◌≤◌, length};
ghost use Rattle.publishing.specs.Publishing.{is_whole, is_mode, copied, copied_to, with_laptop, PublishedAs};
ghost use Rattle.laptop.specs.State.{published as State·published};
ghost use Rattle.laptop.specs.Step.{Step};

use laptop::{Candidate, Laptop, MODES_EACH};
use messages::{first, item_or};

fn published(laptop: Laptop) -> Laptop
    ensures { result ≡ State·published laptop }
{
    Laptop {
        wait: None,
        candidate: Candidate::Absent,
        held: Some(laptop.gathered),
        ..laptop
    }
}

// The list is done, and no modes are missing.
#[tactic(auto, unfolding(crate::specs::Publishing::is_whole))]
pub fn is_whole(laptop: Laptop) -> bool
    ensures { result ≡ is_whole laptop }
{
    laptop.candidate == Candidate::Done && laptop.gathered.count <= laptop.stored
}

// Word k of a run is a mode if its place in its SVID's six words is below the number of modes.
#[tactic(auto, unfolding(crate::specs::Publishing::is_mode))]
fn is_mode(modes: &[u8], k: usize) -> bool
    ensures { result ≡ is_mode modes.now k }
{
    k % MODES_EACH < usize::from(item_or(modes, k / MODES_EACH, 0))
}

#[tactic(auto, using(crate::proofs::Copying::copy_steps), unfolding(crate::specs::Publishing::copied_to))]
fn copy_word(modes: &[u8], run: &[u32], held_run: &mut [u32], k: usize)
    ensures { held_run.new ≡ copied_to modes.now run.now k held_run.old }
{
    if k < held_run.len() && is_mode(modes, k) {
        held_run[k] = item_or(run, k, 0);
    }
}

// Copies the modes, and no other word.
fn copy_modes(modes: &[u8], run: &[u32], held_run: &mut [u32])
    requires { length modes.now ≤ 72 }
    ensures { held_run.new ≡ copied modes.now run.now 0 held_run.old }
{
    for k in 0..modes.len() * MODES_EACH {
        copy_word(modes, run, held_run, k);
    }
}

// The candidate replaces the held catalogue.
pub fn publish(
    laptop: Laptop,
    svids: &[u16; 72],
    modes: &[u8; 72],
    identity: &[u32; 6],
    run: &[u32],
    held_svids: &mut [u16; 72],
    held_modes: &mut [u8; 72],
    held_identity: &mut [u32; 6],
    held_run: &mut [u32],
) -> Laptop
    ensures { (step : Step) → PublishedAs (with_laptop laptop step) svids.now modes.now identity.now run.now held_svids held_modes held_identity held_run (with_laptop result step) }
{
    *held_svids = *svids;
    *held_modes = *modes;
    *held_identity = *identity;
    let listed = first(modes, usize::from(laptop.gathered.count));
    copy_modes(listed, run, held_run);
    published(laptop)
}
