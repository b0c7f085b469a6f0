// Set questions over the rows of a checked table, and the check of a set of its sites.
#![tactic(auto)]

ghost use Rattle.std.specs.Prelude.{◌≡◌, true, false, ℕ, ◌<◌, ◌≤◌};
ghost use Rattle.masks.specs.Mask.{within};
ghost use Rattle.table.specs.Table.{site_of, count_of, slice_of};
ghost use Rattle.threshold_row.specs.Inner.Row.{sets_of};
ghost use Rattle.threshold_sets.specs.Met.{root_met};
ghost use Rattle.sets.specs.Groups.{outsider};
ghost use Rattle.sets.specs.Inner.Rows.{of_sets, ListedRow, Rows, rules_of};
ghost use Rattle.sets.specs.Quorum.{quorum};

use refusals::Refusal;

// 10: the set names a site at or above n.
pub fn check_set(n: usize, set: u64) -> Result<(), Refusal>
    requires { n ≤ 64 }
    ensures { result ≡ outsider n set }
{
    if masks::within(set, masks::all_below(n as u64)) {
        return Ok(());
    }
    Err(Refusal::Set)
}

// The row of site v holds sets with thresholds.
pub fn of_sets(table: &[u64], n: usize, v: usize) -> bool
    requires rows { Rows table.now n }
    requires v_lt_n { v < n }
    ensures { result ≡ of_sets table.now v }
{
    62 < table[63 * v]
}

// Of a row of sets: its root is met by u.
fn is_met(table: &[u64], n: usize, v: usize, u: u64) -> bool
    requires rows { Rows table.now n }
    requires v_lt_n { v < n }
    requires v_value { of_sets table.now v ≡ true }
    ensures { result ≡ root_met (sets_of (site_of table.now v)) u }
{
    threshold_row::is_met(&table[63 * v..63 * v + 63], u)
}

// Of a row of sets: the set w blocks site v if what is left without the others of w does not meet the root.
fn blocks_unmet(table: &[u64], n: usize, w: u64, v: usize) -> bool
    requires rows { Rows table.now n }
    requires v_lt_n { v < n }
    requires v_value { of_sets table.now v ≡ true }
    ensures { result ≡ (rules_of table.now).blocked v w }
{
    let own = masks::single(v as u64);
    let all = masks::all_below(n as u64);
    !is_met(table, n, v, masks::minus(all, masks::minus(w, own)))
}

// Of a row that lists slices: without v itself the set w meets every slice of v.
fn blocks_listed(table: &[u64], n: usize, w: u64, v: usize) -> bool
    requires rows { Rows table.now n }
    requires v_lt_n { v < n }
    requires listed_row { ListedRow table.now n v }
    ensures { result ≡ (rules_of table.now).blocked v w }
{
    let others = masks::minus(w, masks::single(v as u64));
    let many = table[63 * v] as usize;
    for i in 0..many {
        if table[63 * v + 1 + i] & others == 0 {
            return false;
        }
    }
    true
}

// The set w blocks site v, which does not count itself.
pub fn blocks(table: &[u64], n: usize, w: u64, v: usize) -> bool
    requires rows { Rows table.now n }
    requires v_lt_n { v < n }
    ensures { result ≡ (rules_of table.now).blocked v w }
{
    if of_sets(table, n, v) {
        return blocks_unmet(table, n, w, v);
    }
    blocks_listed(table, n, w, v)
}

// The first slice of site v, whose row lists them, from slice start on that is inside u, or the count of its slices.
pub fn next_inside(table: &[u64], n: usize, v: usize, u: u64, start: u8) -> usize
    requires rows { Rows table.now n }
    requires v_lt_n { v < n }
    requires listed_row { ListedRow table.now n v }
    ensures upper_bound { result ≤ count_of table.now v }
    ensures u_value { result < count_of table.now v → within (slice_of table.now v result) u ≡ true }
    ensures by_index { (i : ℕ) → start ≤ i → i < result → within (slice_of table.now v i) u ≡ false }
    ensures lower_bound { result < count_of table.now v → start ≤ result }
{
    let many = table[63 * v] as usize;
    for i in usize::from(start)..many {
        if masks::within(table[63 * v + 1 + i], u) {
            return i;
        }
    }
    many
}

// Of a row that lists slices: one is inside u.
fn has_listed(table: &[u64], n: usize, v: usize, u: u64) -> bool
    requires rows { Rows table.now n }
    requires v_lt_n { v < n }
    requires listed_row { ListedRow table.now n v }
    ensures { result ≡ (rules_of table.now).inside v u }
{
    next_inside(table, n, v, u, 0) < table[63 * v] as usize
}

// Of a row of sets: site v is in u, and u meets its root.
pub fn has_met(table: &[u64], n: usize, v: usize, u: u64) -> bool
    requires rows { Rows table.now n }
    requires v_lt_n { v < n }
    requires v_value { of_sets table.now v ≡ true }
    ensures { result ≡ (rules_of table.now).inside v u }
{
    if !masks::has(u, v as u64) {
        return false;
    }
    is_met(table, n, v, u)
}

// Site v has a slice inside u.
pub fn has_slice(table: &[u64], n: usize, v: usize, u: u64) -> bool
    requires rows { Rows table.now n }
    requires v_lt_n { v < n }
    ensures { result ≡ (rules_of table.now).inside v u }
{
    if of_sets(table, n, v) {
        return has_met(table, n, v, u);
    }
    has_listed(table, n, v, u)
}

// q is a quorum.
pub fn is_quorum(table: &[u64], n: usize, q: u64) -> bool
    requires { Rows table.now n }
    ensures { result ≡ quorum (rules_of table.now).inside n q }
{
    if q == 0 {
        return false;
    }
    if !masks::within(q, masks::all_below(n as u64)) {
        return false;
    }
    for v in 0..n {
        if masks::has(q, v as u64) && !has_slice(table, n, v, q) {
            return false;
        }
    }
    true
}
