// What every call is made of: a new state, and a message handed over.
ghost use Rattle.std.specs.Prelude.{◌≡◌, false, []};
ghost use Rattle.dock.specs.Data.{with_standing, with_edition};
ghost use Rattle.dock.specs.Dock.{sends, reply, sending, Stepped};
ghost use Rattle.dock.specs.Step.{stepped};

use crate::{Accepted, Dock, Standing};
use messages::{Edition, Refusal, Request, head_for};
use writing::write;

pub fn standing_at(standing: Standing, dock: Dock) -> Dock
    ensures { result ≡ with_standing standing dock }
{
    Dock { standing, ..dock }
}

pub fn spoken_at(edition: Edition, dock: Dock) -> Dock
    ensures { result ≡ with_edition edition dock }
{
    Dock { edition, ..dock }
}

// Hands an answer to a request over at an edition, which is then the dock's; a buffer that is too short is refused, and the dock stays as it was.
pub fn send(
    dock: Dock,
    edition: Edition,
    request: Request,
    kind: u8,
    objects: &[u32],
    page: bool,
    out: &mut [u8],
) -> Result<Accepted, Refusal>
    ensures { Stepped dock (sends (reply request kind objects.now) (sending page (with_edition edition dock))) out.old (stepped dock result) out.new }
{
    write(edition, head_for(request, kind), objects, out)?;
    Ok(Accepted {
        length: (objects.len() * 4 + 4) as u8,
        dock: standing_at(Standing::Sending(page), spoken_at(edition, dock)),
    })
}

// An answer without objects.
pub fn send_bare(
    dock: Dock,
    edition: Edition,
    request: Request,
    kind: u8,
    out: &mut [u8],
) -> Result<Accepted, Refusal>
    ensures { Stepped dock (sends (reply request kind []) (sending false (with_edition edition dock))) out.old (stepped dock result) out.new }
{
    send(dock, edition, request, kind, &[], false, out)
}
