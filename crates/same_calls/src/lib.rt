// Two lists of calls beside each other: which calls a list has, and whether two lists have the same.
#![tactic(auto)]

ghost use Rattle.std.specs.Prelude.{◌≡◌, ◌+◌, ◌*◌, ◌≤◌, length};
ghost use Rattle.run.specs.Run.{list_misshapen};
ghost use Rattle.same_calls.specs.Same.{is_call, has_call, covers, same_lists, proposed};

// Whether the list is refused with 17.
#[tactic(auto, unfolding(run::specs::Run::list_misshapen))]
pub fn misshapen(list: &[u8]) -> bool
    ensures { result ≡ list_misshapen (length list.now) }
{
    list.len() % 4 != 0 || list.len() > 16384
}

// Whether the call at place i is this one.
#[tactic(auto, unfolding(crate::specs::Same::is_call))]
fn is_call(list: &[u8], i: usize, kind: u8, from: u8, to: u8, side: u8) -> bool
    requires { 4 * i + 4 ≤ length list.now }
    ensures { result ≡ is_call list.now i kind from to side }
{
    let k = 4 * i;
    list[k] == kind && list[k + 1] == from && list[k + 2] == to && list[k + 3] == side
}

// Whether one of the first n calls of the list is this one.
pub fn has_call(list: &[u8], n: usize, kind: u8, from: u8, to: u8, side: u8) -> bool
    requires { 4 * n ≤ length list.now }
    ensures { result ≡ has_call n list.now kind from to side }
{
    for i in 0..n {
        if is_call(list, i, kind, from, to, side) {
            return true;
        }
    }
    false
}

// Whether every call of the first list is one of the second.
pub fn covers(a: &[u8], b: &[u8]) -> bool
    ensures { result ≡ covers a.now b.now }
{
    let n = a.len() / 4;
    let m = b.len() / 4;
    for i in 0..n {
        let k = 4 * i;
        if !has_call(b, m, a[k], a[k + 1], a[k + 2], a[k + 3]) {
            return false;
        }
    }
    true
}

// Whether the side is proposed to the site in one of the lists.
#[tactic(auto, unfolding(crate::specs::Same::proposed))]
pub fn proposed(a: &[u8], b: &[u8], v: u8, side: u8) -> bool
    ensures { result ≡ proposed a.now b.now v side }
{
    has_call(a, a.len() / 4, 0, v, v, side) || has_call(b, b.len() / 4, 0, v, v, side)
}

// Whether the lists have the same calls.
#[tactic(auto, unfolding(crate::specs::Same::same_lists))]
pub fn same_lists(a: &[u8], b: &[u8]) -> bool
    ensures { result ≡ same_lists a.now b.now }
{
    covers(a, b) && covers(b, a)
}
