// Are two parts of a port the same? They are when their numbers are.
ghost use Rattle.std.specs.Prelude.{◌≡◌};
ghost use Rattle.taking.specs.Taking.{same_list};
ghost use Rattle.controller.specs.Port.{wait_numbers, own_numbers};

use messages::Request;
use port::{Own, Side};

pub(crate) fn same_wait(one: Option<(Side, Request)>, other: Option<(Side, Request)>) -> bool
    ensures { result ≡ same_list (wait_numbers one) (wait_numbers other) }
{
    one == other
}

pub(crate) fn same_own(a: Own, b: Own) -> bool
    ensures { result ≡ same_list (own_numbers a) (own_numbers b) }
{
    a == b
}
