#![tactic(auto)]

// What becomes of an answer of the dock end, "sent" or "failed": document 01, "The dock end". The state is that of `dock`.
ghost use Rattle.std.specs.Prelude.{◌≡◌};
ghost use Rattle.dock.specs.Dock.{moved, decide_sent, decide_failed, step_of};
ghost use Rattle.dock.specs.Step.{stepped};

use dock::{Accepted, Dock, Standing, standing_at};
use messages::{Refusal, first};
use pages::is_last;

// A page that does not end the list moves on to the next; the last stays until the next Identity.
// The bool is that of Standing.
fn move_on(paged: bool, dock: Dock) -> Dock
    ensures { result ≡ moved paged dock }
{
    if !paged || is_last(first(&dock.svids, usize::from(dock.count)), dock.page) {
        return standing_at(Standing::Ready, dock);
    }
    Dock {
        page: dock.page + 1,
        standing: Standing::Ready,
        ..dock
    }
}

// The answer was sent; refused 9 where none is.
pub fn sent(dock: Dock) -> Result<Accepted, Refusal>
    ensures { stepped dock result ≡ step_of dock (decide_sent dock dock.standing) 0 }
{
    let Standing::Sending(paged) = dock.standing else {
        return Err(Refusal::NotNow);
    };
    Ok(Accepted {
        length: 0,
        dock: move_on(paged, dock),
    })
}

// The answer failed; refused 9 where none is sent.
pub fn failed(dock: Dock) -> Result<Accepted, Refusal>
    ensures { stepped dock result ≡ step_of dock (decide_failed dock dock.standing) 0 }
{
    let Standing::Sending(_) = dock.standing else {
        return Err(Refusal::NotNow);
    };
    Ok(Accepted {
        length: 0,
        dock: move_on(false, dock),
    })
}
