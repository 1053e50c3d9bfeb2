// Scanning a list of SVIDs.
ghost use Rattle.std.specs.Prelude.{◌≡◌, take};
ghost use Rattle.pages.specs.Lists.{is_in, sound_list};

// Does the list have the SVID? Each element is looked at, with no way out before the end: the compiler then compares
// several at a time, as it does not in a fold where the call is inlined.
pub fn is_in(svid: u16, list: &[u16]) -> bool
    ensures { result ≡ is_in svid list.now }
{
    let mut found = false;
    for listed in list {
        found = found | (*listed == svid);
    }
    found
}

// None 0, all different.
#[tactic(auto, using(crate::proofs::Scanning::sound_steps))]
pub fn sound(list: &[u16]) -> bool
    ensures { result ≡ sound_list list.now }
{
    for (i, svid) in list.iter().enumerate() {
        if *svid == 0 || is_in(*svid, &list[i + 1..]) {
            return false;
        }
    }
    true
}

// The first n SVIDs, or all where there are fewer.
pub fn first_svids(list: &[u16], n: usize) -> &[u16]
    ensures { result.now ≡ take n list.now }
{
    messages::first(list, n)
}
