// A set of sites as a 64-bit mask: bit v for site v.
#![tactic(auto)]

ghost use Rattle.std.specs.Prelude.{◌≡◌, ◌<◌, ◌≤◌};
ghost use Rattle.masks.specs.Mask.{has, single, within, minus, all_below, size};

// Site v is in the set.
pub fn has(set: u64, v: u64) -> bool
    requires { v < 64 }
    ensures { result ≡ has set v }
{
    (set >> v) % 2 == 1
}

// The set of site v alone.
pub fn single(v: u64) -> u64
    requires { v < 64 }
    ensures { result ≡ single v }
{
    1u64 << v
}

// Every member of q is in u.
pub fn within(q: u64, u: u64) -> bool
    ensures { result ≡ within q u }
{
    q & u == q
}

// The members of a that are not in b.
pub fn minus(a: u64, b: u64) -> u64
    ensures { result ≡ minus a b }
{
    a & !b
}

// All sites below n. A shift by 64 is no shift, so 64 has its own case.
pub fn all_below(n: u64) -> u64
    requires { n ≤ 64 }
    ensures { result ≡ all_below n }
{
    if n == 64 {
        return u64::MAX;
    }
    (1u64 << n) - 1
}

// How many sites are in the set.
pub fn size(set: u64) -> u32
    ensures { result ≡ size set }
{
    set.count_ones()
}
