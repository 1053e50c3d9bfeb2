// Lists of SVIDs and of objects, and their place in the dock's arrays.
ghost use Rattle.std.specs.Prelude.{◌≡◌, ◌≤◌, length};
ghost use Rattle.laws.specs.Padded.{padded};
ghost use Rattle.dock.specs.Data.{in_array};

use messages::item_or;
use std::array;

// The list in an array of 72, with zeros behind it.
pub(crate) fn svids_from(list: &[u16]) -> [u16; 72]
    requires { length list.now ≤ 72 }
    ensures { result ≡ in_array list.now }
{
    let mut svids = [0; 72];
    svids[..list.len()].copy_from_slice(list);
    svids
}

// The first six objects, with zeros behind them.
pub(crate) fn objects_from(objects: &[u32]) -> [u32; 6]
    ensures { result ≡ padded objects.now }
{
    array::from_fn(|i| item_or(objects, i, 0))
}
