#![tactic(auto)]

// A message reaches the dock end: document 01, "The dock end"; document 02, R-5. The state is that of `dock`.
ghost use Rattle.std.specs.Prelude.{◌≡◌};
ghost use Rattle.messages.specs.Reading.{read_outcome};
ghost use Rattle.dock.specs.Dock.{asking, decide_request, decide_message, Stepped};
ghost use Rattle.dock.specs.Data.{with_edition};
ghost use Rattle.dock.specs.Step.{stepped};

use dock::{Accepted, Dock, Standing, send_bare, spoken_at, standing_at};
use messages::{ATTENTION, EXIT, Edition, IDENTITY, NAK, OURS, REQ, Refusal, Request, lower};
use reading::read;

// Identity sets the page to 0 on receipt.
fn asking_for(request: Request, dock: Dock) -> Dock
    ensures { result ≡ asking request dock }
{
    if request.command == IDENTITY {
        return Dock {
            page: 0,
            standing: Standing::Asking(request),
            ..dock
        };
    }
    standing_at(Standing::Asking(request), dock)
}

// A request that is answered at the edition.
fn receive(
    dock: Dock,
    edition: Edition,
    request: Request,
    out: &mut [u8],
) -> Result<Accepted, Refusal>
    ensures { Stepped dock (decide_request (with_edition edition dock) request) out.old (stepped dock result) out.new }
{
    if request.command < IDENTITY || EXIT < request.command {
        return send_bare(dock, edition, request, NAK, out);
    }
    Ok(Accepted {
        length: 0,
        dock: asking_for(request, spoken_at(edition, dock)),
    })
}

// A message from the laptop: refused 1 to 5, then 6, then 11. Its answer has the lower of its edition and ours.
pub fn message(dock: Dock, bytes: &[u8], out: &mut [u8]) -> Result<Accepted, Refusal>
    ensures { Stepped dock (decide_message dock (read_outcome bytes.now)) out.old (stepped dock result) out.new }
{
    let received = read(bytes)?;
    let head = received.head;
    if head.kind != REQ || head.command == ATTENTION {
        return Err(Refusal::Unawaited);
    }
    receive(
        dock,
        lower(received.edition, OURS),
        Request::from(head),
        out,
    )
}
