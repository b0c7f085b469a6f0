// One block of a table of thresholds: its check.
#![tactic(auto)]

ghost use Rattle.std.specs.Prelude.{◌≡◌, ◌-◌, ◌+◌, ◌≤◌, ◌<◌, length, get_or};
ghost use Rattle.refusals.specs.First.{or_else, refuse, first};
ghost use Rattle.site_block.specs.Block.{count_field};
ghost use Rattle.threshold_block.specs.Block.{sets_in, sets_unfilled, threshold_block_check};
ghost use Rattle.threshold_block.specs.Inner.{opened};
ghost use Rattle.threshold_sets.specs.Check.{closed_levels, entered_levels, owed, owing, one_set_check, sets_check};

use refusals::Refusal;

// Of the open levels those that are left when each innermost one that owes no set is closed: how many.
fn close(levels: &[u8; 5], depth: usize) -> usize
    requires { depth ≤ 5 }
    ensures { (opened levels.now result ≡ closed_levels (opened levels.now depth)) × (result ≤ depth) }
{
    for d in (0..depth).rev() {
        if levels[d] != 0 {
            return d + 1;
        }
    }
    0
}

// A set with k inner sets at the innermost of the open levels: how many levels are open then.
fn enter(levels: &mut [u8; 5], depth: usize, k: u8) -> usize
    requires levels_len { length levels.old ≡ 5 }
    requires le_depth { 1 ≤ depth }
    requires depth_bound { depth ≤ 4 }
    requires bound { 1 ≤ get_or levels.old (depth - 1) 0 }
    ensures { (opened levels.new result ≡ entered_levels k (opened levels.old depth)) × (result ≤ depth + 1) × (length levels.new ≡ 5) }
{
    let at = depth - 1;
    levels[at] = levels[at] - 1;
    levels[depth] = k;
    close(levels, depth + 1)
}

// Set i of the block, before which so many levels are open: 5, 21, 22.
fn check_set(b: &[u8], n: u64, place: u64, i: usize, depth: usize) -> Result<(), Refusal>
    requires b_len { length b.now ≡ 512 }
    requires n_bound { n ≤ 64 }
    requires i_bound { i < 49 }
    requires depth_value { depth ≡ length (owed (sets_in b.now) i) }
    ensures { result ≡ one_set_check n place (sets_in b.now) i }
{
    let plain = le::get64(b, 10 + 10 * i);
    if !masks::within(plain, masks::all_below(n)) {
        return Err(Refusal::Slice(place));
    }
    let threshold = usize::from(b[8 + 10 * i]);
    if threshold == 0 {
        return Err(Refusal::Threshold(place));
    }
    if masks::size(plain) as usize + usize::from(b[9 + 10 * i]) < threshold {
        return Err(Refusal::Threshold(place));
    }
    if depth == 0 {
        return Err(Refusal::Nesting(place));
    }
    if 4 < depth {
        return Err(Refusal::Nesting(place));
    }
    Ok(())
}

// The block's sets: set by set, then 22 if inner sets are owed at the end.
fn check_sets(b: &[u8], n: u64, place: u64, many: usize) -> Result<(), Refusal>
    requires b_len { length b.now ≡ 512 }
    requires n_bound { n ≤ 64 }
    requires many_value { many ≡ count_field b.now }
    requires many_bound { many ≤ 49 }
    ensures { result ≡ or_else (first (one_set_check n place (sets_in b.now)) many)
        (refuse (owing (sets_in b.now)) (Refusal.Nesting place)) }
{
    let mut levels = [1u8, 0, 0, 0, 0];
    let mut depth: usize = 1;
    for i in 0..many {
        check_set(b, n, place, i, depth)?;
        depth = enter(&mut levels, depth, b[9 + 10 * i]);
    }
    if depth != 0 {
        return Err(Refusal::Nesting(place));
    }
    Ok(())
}

// Filler is not zero: the bytes behind the last of the sets.
fn is_unfilled(b: &[u8], many: usize) -> bool
    requires b_len { length b.now ≡ 512 }
    requires many_value { many ≡ count_field b.now }
    requires many_bound { many ≤ 49 }
    ensures { result ≡ sets_unfilled b.now }
{
    let mut any: u8 = 0;
    for at in 8 + 10 * many..504 {
        any |= b[at];
    }
    any != 0
}

// The sets that the block holds, and its filler: 4, its sets, 8, carrying the place.
fn check_held(b: &[u8], n: u64, place: u64) -> Result<(), Refusal>
    requires b_len { length b.now ≡ 512 }
    requires n_bound { n ≤ 64 }
    ensures { result ≡ sets_check n place (sets_in b.now) (sets_unfilled b.now) }
{
    let many = le::get16(b, 4) as usize;
    if many == 0 {
        return Err(Refusal::Count(place));
    }
    if 49 < many {
        return Err(Refusal::Count(place));
    }
    check_sets(b, n, place, many)?;
    if is_unfilled(b, many) {
        return Err(Refusal::Filler(place));
    }
    Ok(())
}

// The block of a site in a table of n sites: 2, 3, then the sets that it holds, carrying the place.
pub fn check_block(b: &[u8], n: u64, site: u64, place: u64) -> Result<(), Refusal>
    requires b_len { length b.now ≡ 512 }
    requires n_bound { n ≤ 64 }
    ensures { result ≡ threshold_block_check n site place b.now }
{
    if block::check(b) != 0 {
        return Err(Refusal::Sums(place));
    }
    if (le::get16(b, 0) as u64) != site {
        return Err(Refusal::Header(place));
    }
    if (le::get16(b, 2) as u64) != n {
        return Err(Refusal::Header(place));
    }
    if le::get16(b, 6) != 0 {
        return Err(Refusal::Header(place));
    }
    check_held(b, n, place)
}
