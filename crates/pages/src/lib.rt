#![tactic(auto)]

// The pages of a list of SVIDs: twelve a page, two an object. `taking` takes one.
mod list;

ghost use Rattle.std.specs.Prelude.{◌≡◌, ◌<◌, get_or};
ghost use Rattle.pages.specs.Pages.{page as Pages·page, is_last, pair_at, pairs_from, shown_page};

pub use list::{first_svids, is_in, sound};
use messages::item_or;

// A page's objects stand first among the six words, and zeros behind them.
// All six are told, as `shown_page` defines it.
#[derive(Clone, Copy)]
pub struct Page {
    pub objects: [u32; 6],
    pub count: u8,
}

pub const PER_PAGE: usize = 12;

pub const MOST_SVIDS: usize = 72;

// The value at i, or 0 past the end of the list.
fn value_at(list: &[u16], i: usize) -> u32
    ensures { (result ≡ get_or list.now i 0) × (result < 65536) }
{
    u32::from(item_or(list, i, 0))
}

// The values at i and after it as an object, the first in the high half.
fn pair_at(list: &[u16], i: usize) -> u32
    requires { i < 4096 }
    ensures { result ≡ pair_at list.now i }
{
    value_at(list, i) * 65536 + value_at(list, i + 1)
}

fn pairs_from(list: &[u16], at: usize) -> [u32; 6]
    requires { at < 4000 }
    ensures { result ≡ pairs_from list.now at }
{
    std::array::from_fn(|k| pair_at(list, at + 2 * k))
}

// The page of a list. Two values stand in an object, and an even number of them is followed by one more.
pub fn make_page(list: &[u16], page: u8) -> Page
    ensures { result ≡ shown_page (Pages·page list.now page) }
{
    let at = usize::from(page) * PER_PAGE;
    let rest = list.len().saturating_sub(at);
    Page {
        objects: pairs_from(list, at),
        count: (rest / 2 + 1).min(6) as u8,
    }
}

// Does the page end the list?
pub fn is_last(list: &[u16], page: u8) -> bool
    ensures { result ≡ is_last list.now page }
{
    list.len() < usize::from(page) * PER_PAGE + PER_PAGE
}
