// A dock of an older edition. It is our dock, but it answers at the lower of the request's edition and its highest.
use crate::link::{REQUEST, written};
use messages::{Edition, Refusal, lower};

// The request as our dock has to hear it, so that it answers as the other does.
pub(crate) fn lowered(request: [u8; REQUEST], highest: Edition) -> Result<[u8; REQUEST], Refusal> {
    let received = reading::read(&request)?;
    written(lower(received.edition, highest), received.head)
}
