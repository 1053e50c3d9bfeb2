#![tactic(auto)]

// Taking a page: what its values are to the gathered list. Document 01, "Taking a page".
ghost use Rattle.std.specs.Prelude.{◌≡◌, length};
ghost use Rattle.taking.specs.Taking.{same_list, is_repeat, is_full, is_ending, all_new, adds, nothing, ending_verdict, verdict};
ghost use Rattle.taking.specs.Taking.{before as Taking·before};

use pages::{MOST_SVIDS, PER_PAGE, is_in};

// A page that is bad, that repeats the last one, that adds twelve SVIDs, or that ends the list with so many.
// Each is a verdict like the others, of which two leave the list open: no Option or Result.
#[derive(Clone, Copy, PartialEq, Eq)]
pub enum Verdict {
    Bad,
    Repeat,
    More,
    Ends(u8),
}

// Are the two lists the same?
// The library's `==` of two slices is a call of its own: it takes `laptop_message` over its limit of stack.
#[tactic(auto, using(crate::proofs::Judging::same_steps))]
pub fn same(a: &[u16], b: &[u16]) -> bool
    ensures { result ≡ same_list a.now b.now }
{
    a.len() == b.len() && a.ends_with(b)
}

#[tactic(auto, unfolding(crate::specs::Taking::is_repeat))]
fn is_repeat(list: &[u16], values: &[u16]) -> bool
    ensures { result ≡ is_repeat list.now values.now }
{
    PER_PAGE <= list.len() && same(&list[list.len() - PER_PAGE..], values)
}

// How many values stand before the first zero.
fn before(values: &[u16]) -> usize
    ensures { result ≡ Taking·before values.now }
{
    values
        .iter()
        .position(|value| *value == 0)
        .unwrap_or(values.len())
}

// As `sound` of pages but for the test of each value, which a shared function would take as a closure.
#[tactic(auto, using(crate::proofs::Judging::new_steps))]
fn all_new(list: &[u16], values: &[u16]) -> bool
    ensures { result ≡ all_new list.now values.now }
{
    for (i, svid) in values.iter().enumerate() {
        if is_in(*svid, list) || is_in(*svid, &values[i + 1..]) {
            return false;
        }
    }
    true
}

// Is the list with these SVIDs still one of at most 72, all different?
#[tactic(auto, unfolding(crate::specs::Taking::adds))]
fn adds_to(list: &[u16], values: &[u16]) -> bool
    ensures { result ≡ adds list.now values.now }
{
    list.len() + values.len() <= MOST_SVIDS && all_new(list, values)
}

// The number of values before a zero goes beside them: counted once, in `judge`, it needs no struct of both.
#[tactic(auto, unfolding(crate::specs::Taking::is_ending))]
fn is_ending(values: &[u16], n: usize) -> bool
    requires { n ≡ Taking·before values.now }
    ensures { result ≡ is_ending values.now }
{
    n < values.len() && values.len() <= n + 2 && values[values.len() - 1] == 0
}

#[tactic(auto, unfolding(crate::specs::Taking::is_full))]
fn is_full(values: &[u16], n: usize) -> bool
    requires { n ≡ Taking·before values.now }
    ensures { result ≡ is_full values.now }
{
    values.len() == PER_PAGE && n == PER_PAGE
}

// All zeros on an empty list, where n values stand before the first zero.
fn is_nothing(list: &[u16], n: usize) -> bool
    ensures { result ≡ nothing (length list.now) n }
{
    list.is_empty() && n == 0
}

// A page that is neither a repeat nor full, with n values before its first zero.
#[tactic(auto, using(crate::proofs::Judging::ending_steps), unfolding(crate::specs::Taking::ending_verdict))]
fn judge_ending(list: &[u16], values: &[u16], n: usize) -> Verdict
    requires { n ≡ Taking·before values.now }
    ensures { result ≡ ending_verdict list.now values.now }
{
    if is_ending(values, n) && !is_nothing(list, n) && adds_to(list, &values[..n]) {
        Verdict::Ends(n as u8)
    } else {
        Verdict::Bad
    }
}

// What a page's values are to the gathered list.
#[tactic(auto, unfolding(crate::specs::Taking::verdict, crate::specs::Taking::ending_verdict))]
pub fn judge(list: &[u16], values: &[u16]) -> Verdict
    ensures { result ≡ verdict list.now values.now }
{
    if is_repeat(list, values) {
        return Verdict::Repeat;
    }
    let n = before(values);
    if !is_full(values, n) {
        judge_ending(list, values, n)
    } else if adds_to(list, values) {
        Verdict::More
    } else {
        Verdict::Bad
    }
}
