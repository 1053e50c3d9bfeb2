// A dock that was never loaded.
ghost use Rattle.std.specs.Prelude.{◌≡◌};
ghost use Rattle.dock.specs.Data.{fresh_dock};

use crate::{Dock, Standing};
use messages::OURS;

pub fn fresh() -> Dock
    ensures { result ≡ fresh_dock }
{
    Dock {
        identity: [0; 6],
        extent: 0,
        svids: [0; 72],
        count: 0,
        page: 0,
        edition: OURS,
        standing: Standing::Ready,
    }
}
