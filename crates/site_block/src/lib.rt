// One block of the table on file, a site's numbers as 512 bytes: checked and read.
#![tactic(auto)]

ghost use Rattle.std.specs.Prelude.{true, ◌≡◌, ℕ, ◌≤◌, ◌<◌, length};
ghost use Rattle.site_block.specs.Block.{count_field, slice_field, block_unfilled, load, block_row_check, block_check};
ghost use Rattle.refusals.specs.First.{first};
ghost use Rattle.rows.specs.Row.{slice_check};

use refusals::Refusal;

// The 63 numbers of a block.
pub fn load_block(b: &[u8], m: &mut [u64])
    requires b_len { length b.now ≡ 512 }
    requires m_len { length m.old ≡ 63 }
    ensures { m.new ≡ load b.now }
{
    m[0] = le::get16(b, 4) as u64;
    for k in 0..62 {
        m[1 + k] = le::get64(b, 8 + 8 * k);
    }
}

// True only if the first many slices of the owner's block are sound, and then they are at any place. No branch in the loop.
fn are_sound(b: &[u8], n: u64, owner: u64, many: usize) -> bool
    requires b_len { length b.now ≡ 512 }
    requires many_bound { many ≤ 62 }
    requires owner_bound { owner < 64 }
    requires n_bound { n ≤ 64 }
    ensures { result ≡ true → (place : ℕ) → first (slice_check n owner place (slice_field b.now)) many ≡ Ok tt }
{
    let mut g = rows::gather_first(le::get64(b, 8));
    for k in 1..many {
        g = rows::gather(g, le::get64(b, 8 * k), le::get64(b, 8 + 8 * k));
    }
    rows::is_sound(g, n, owner)
}

// The first many slices of the owner's block, in order: walked only where one is not sound.
fn check_slices(b: &[u8], n: u64, owner: u64, place: u64, many: usize) -> Result<(), Refusal>
    requires b_len { length b.now ≡ 512 }
    requires many_bound { many ≤ 62 }
    requires owner_bound { owner < 64 }
    requires n_bound { n ≤ 64 }
    ensures { result ≡ first (slice_check n owner place (slice_field b.now)) many }
{
    if are_sound(b, n, owner, many) {
        return Ok(());
    }
    let mut before = le::get64(b, 8);
    for k in 0..many {
        let q = le::get64(b, 8 + 8 * k);
        rows::check_slice(n, owner, place, k, before, q)?;
        before = q;
    }
    Ok(())
}

// Filler is not zero: the bytes behind the last of the slices, read as the unused places.
fn is_unfilled(b: &[u8], many: usize) -> bool
    requires b_len { length b.now ≡ 512 }
    requires many_value { many ≡ count_field b.now }
    requires many_bound { many ≤ 62 }
    ensures { result ≡ block_unfilled b.now }
{
    let left = 62 - many;
    let mut any: u64 = 0;
    for j in 0..left {
        any |= le::get64(b, 8 + 8 * (many + j));
    }
    any != 0
}

// The slices that the owner's block holds, and its filler: 4, each slice 5 then 6, then 8, carrying the place.
fn check_row(b: &[u8], n: u64, owner: u64, place: u64) -> Result<(), Refusal>
    requires b_len { length b.now ≡ 512 }
    requires owner_bound { owner < 64 }
    requires n_bound { n ≤ 64 }
    ensures { result ≡ block_row_check n owner place b.now }
{
    let many = le::get16(b, 4) as usize;
    if many == 0 {
        return Err(Refusal::Count(place));
    }
    if 62 < many {
        return Err(Refusal::Count(place));
    }
    check_slices(b, n, owner, place, many)?;
    if is_unfilled(b, many) {
        return Err(Refusal::Filler(place));
    }
    Ok(())
}

// The block of a site in a table of n sites: 2, 3, then the slices that it holds, carrying the place.
pub fn check_block(b: &[u8], n: u64, site: u64, place: u64) -> Result<(), Refusal>
    requires b_len { length b.now ≡ 512 }
    requires site_bound { site < 64 }
    requires n_bound { n ≤ 64 }
    ensures { result ≡ block_check n site place b.now }
{
    if block::check(b) != 0 {
        return Err(Refusal::Sums(place));
    }
    if (le::get16(b, 0) as u64) != site {
        return Err(Refusal::Header(place));
    }
    if (le::get16(b, 2) as u64) != n {
        return Err(Refusal::Header(place));
    }
    if le::get16(b, 6) != 0 {
        return Err(Refusal::Header(place));
    }
    check_row(b, n, site, place)
}
