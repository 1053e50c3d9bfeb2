#![tactic(auto)]

// Loading the dock: document 01, "The dock end". The state is that of `dock`.
mod list;

ghost use Rattle.std.specs.Prelude.{◌≡◌, ◌≤◌, length};
ghost use Rattle.dock.specs.Data.{loaded, good_data};
ghost use Rattle.dock.specs.Dock.{decide_load, step_of};
ghost use Rattle.dock.specs.Step.{stepped};

use dock::{Accepted, Dock, Standing};
use list::{objects_from, svids_from};
use messages::{Edition, Refusal};
use pages::{MOST_SVIDS, sound};

fn good_data(identity: &[u32], svids: &[u16]) -> bool
    ensures { result ≡ good_data identity.now svids.now }
{
    3 <= identity.len() && identity.len() <= 6 && svids.len() <= MOST_SVIDS && sound(svids)
}

fn dock_of(edition: Edition, identity: &[u32], svids: &[u16]) -> Dock
    requires { (length identity.now ≤ 6) × (length svids.now ≤ 72) }
    ensures { result ≡ loaded edition identity.now svids.now }
{
    Dock {
        identity: objects_from(identity),
        extent: identity.len() as u8,
        svids: svids_from(svids),
        count: svids.len() as u8,
        page: 0,
        edition,
        standing: Standing::Ready,
    }
}

// Loads identity and list, and sets the page to 0; the edition stays. Refused 9 unless ready, then 10 for data that breaks its limits.
pub fn load(dock: Dock, identity: &[u32], svids: &[u16]) -> Result<Accepted, Refusal>
    ensures { stepped dock result ≡ step_of dock (decide_load dock dock.standing identity.now svids.now) 0 }
{
    if dock.standing != Standing::Ready {
        return Err(Refusal::NotNow);
    }
    if !good_data(identity, svids) {
        return Err(Refusal::BadData);
    }
    Ok(Accepted {
        length: 0,
        dock: dock_of(dock.edition, identity, svids),
    })
}
