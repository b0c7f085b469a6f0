// One site's slices, one by one, wherever they are kept; and one site's 63 numbers of a table in memory: their check.
#![tactic(auto)]

ghost use Rattle.std.specs.Prelude.{true, ◌&&◌, ◌≡◌, ℕ, ◌≤◌, ◌<◌, ltb, length};
ghost use Rattle.std.specs.Int.Bits.{bit_and, bit_or};
ghost use Rattle.masks.specs.Mask.{has, within, all_below};
ghost use Rattle.rows.specs.Inner.{behind_check};
ghost use Rattle.rows.specs.Row.{slice_check};
ghost use Rattle.rows.specs.Site.{count, slice, row_unfilled, site_check};
ghost use Rattle.refusals.specs.First.{first};

use refusals::Refusal;

// The owner's slice k, which is q, and the slice before it: 5, then 6.
pub fn check_slice(
    n: u64,
    owner: u64,
    place: u64,
    k: usize,
    before: u64,
    q: u64,
) -> Result<(), Refusal>
    requires owner_bound { owner < 64 }
    requires n_bound { n ≤ 64 }
    ensures { result ≡ behind_check n owner place k before q }
{
    if !masks::has(q, owner) {
        return Err(Refusal::Slice(place));
    }
    if !masks::within(q, masks::all_below(n)) {
        return Err(Refusal::Slice(place));
    }
    if k == 0 {
        return Ok(());
    }
    if before < q {
        return Ok(());
    }
    Err(Refusal::Order(place))
}

// What is gathered of slices: what all have in common, what they name together, and whether each is above the one before.
#[derive(Drop)]
pub struct Gathered {
    pub every: u64,
    pub some: u64,
    pub ascend: bool,
}

// Of the first slice alone.
pub fn gather_first(q: u64) -> Gathered
    ensures { (result.every ≡ q) × (result.some ≡ q) × (result.ascend ≡ true) }
{
    Gathered {
        every: q,
        some: q,
        ascend: true,
    }
}

// With the slice q, and the slice before it. No branch.
pub fn gather(g: Gathered, before: u64, q: u64) -> Gathered
    ensures { (result.every ≡ bit_and g.every q) × (result.some ≡ bit_or g.some q) × (result.ascend ≡ g.ascend && ltb before q) }
{
    Gathered {
        every: g.every & q,
        some: g.some | q,
        ascend: g.ascend & (before < q),
    }
}

// The slices gathered are sound for their owner: each contains what all have in common, is inside what they name together, and is above the one before.
pub fn is_sound(g: Gathered, n: u64, owner: u64) -> bool
    requires owner_bound { owner < 64 }
    requires n_bound { n ≤ 64 }
    ensures { result ≡ (g.ascend && has g.every owner) && within g.some (all_below n) }
{
    g.ascend & masks::has(g.every, owner) & masks::within(g.some, masks::all_below(n))
}

// True only if the owner's first many slices are sound, and then they are at any place. No branch in the loop.
fn are_sound(m: &[u64], n: u64, owner: u64, many: usize) -> bool
    requires m_len { length m.now ≡ 63 }
    requires many_bound { many ≤ 62 }
    requires owner_bound { owner < 64 }
    requires n_bound { n ≤ 64 }
    ensures { result ≡ true → (place : ℕ) → first (slice_check n owner place (slice m.now)) many ≡ Ok tt }
{
    let mut g = gather_first(m[1]);
    for k in 1..many {
        g = gather(g, m[k], m[1 + k]);
    }
    is_sound(g, n, owner)
}

// The owner's first many slices, in order: walked only where one is not sound.
fn check_slices(m: &[u64], n: u64, owner: u64, place: u64, many: usize) -> Result<(), Refusal>
    requires m_len { length m.now ≡ 63 }
    requires many_bound { many ≤ 62 }
    requires owner_bound { owner < 64 }
    requires n_bound { n ≤ 64 }
    ensures { result ≡ first (slice_check n owner place (slice m.now)) many }
{
    if are_sound(m, n, owner, many) {
        return Ok(());
    }
    let mut before = m[1];
    for k in 0..many {
        let q = m[1 + k];
        check_slice(n, owner, place, k, before, q)?;
        before = q;
    }
    Ok(())
}

// An unused place is not zero.
fn is_unfilled(m: &[u64]) -> bool
    requires m_len { length m.now ≡ 63 }
    requires m_bound { count m.now ≤ 62 }
    ensures { result ≡ row_unfilled m.now }
{
    let many = m[0] as usize;
    let left = 62 - many;
    let mut any: u64 = 0;
    for j in 0..left {
        any |= m[1 + (many + j)];
    }
    any != 0
}

// The owner's 63 numbers in a table of n sites: 4, each slice 5 then 6, then 8, carrying the place.
pub fn check_site(m: &[u64], n: u64, owner: u64, place: u64) -> Result<(), Refusal>
    requires m_len { length m.now ≡ 63 }
    requires owner_bound { owner < 64 }
    requires n_bound { n ≤ 64 }
    ensures { result ≡ site_check n owner place m.now }
{
    let many = m[0];
    if many == 0 {
        return Err(Refusal::Count(place));
    }
    if 62 < many {
        return Err(Refusal::Count(place));
    }
    check_slices(m, n, owner, place, many as usize)?;
    if is_unfilled(m) {
        return Err(Refusal::Filler(place));
    }
    Ok(())
}
