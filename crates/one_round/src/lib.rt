// One round of the search for the largest quorum: the members of a set that have a slice inside it. And one sweep, which drops at once who has none.
#![tactic(auto)]

ghost use Rattle.std.specs.Prelude.{◌≡◌, true, cond, ◌<◌, length};
ghost use Rattle.masks.specs.Mask.{single, minus, within, ◌∈◌};
ghost use Rattle.table.specs.Table.{count_of, slice_of};
ghost use Rattle.sets.specs.Quorum.{round};
ghost use Rattle.one_round.specs.Inner.First.{lowest};
ghost use Rattle.one_round.specs.Inner.Places.{Places, Placed, SlicesHeld};
ghost use Rattle.one_round.specs.Inner.Swept.{Swept};
ghost use Rattle.sets.specs.Inner.Rows.{of_sets, ListedRow, Rows, rules_of};

// Slice i of site v, whose row lists them, is inside w.
fn is_inside(table: &[u64], n: usize, v: usize, i: u8, w: u64) -> bool
    requires rows { Rows table.now n }
    requires v_lt_n { v < n }
    requires listed_row { ListedRow table.now n v }
    requires i_bound { i < count_of table.now v }
    ensures { result ≡ within (slice_of table.now v i) w }
{
    masks::within(table[63 * v + 1 + usize::from(i)], w)
}

// Of a row that lists slices: site v of w has a slice inside w, at its place or behind it. Its place moves on to the first such slice.
fn moves_on(table: &[u64], n: usize, v: usize, w: u64, places: &mut [u8; 64]) -> bool
    requires rows { Rows table.now n }
    requires v_lt_n { v < n }
    requires listed_row { ListedRow table.now n v }
    requires v { v ∈ w }
    requires places { Places table.now n w places.old }
    ensures value { result ≡ (rules_of table.now).inside v w }
    ensures places_2 { Places table.now n w places.new }
{
    let i = sets::next_inside(table, n, v, w, places[v]);
    if i < table[63 * v] as usize {
        places[v] = i as u8;
        return true;
    }
    false
}

// Of a row that lists slices: site v of w has a slice inside w. The slice at its place, which held it so far, is asked first.
fn stays_listed(table: &[u64], n: usize, v: usize, w: u64, places: &mut [u8; 64]) -> bool
    requires rows { Rows table.now n }
    requires v_lt_n { v < n }
    requires listed_row { ListedRow table.now n v }
    requires v { v ∈ w }
    requires places { Places table.now n w places.old }
    ensures value { result ≡ (rules_of table.now).inside v w }
    ensures places_2 { Places table.now n w places.new }
{
    is_inside(table, n, v, places[v], w) || moves_on(table, n, v, w, places)
}

// Site v of w has a slice inside w.
fn stays(table: &[u64], n: usize, v: usize, w: u64, places: &mut [u8; 64]) -> bool
    requires rows { Rows table.now n }
    requires v_lt_n { v < n }
    requires v { v ∈ w }
    requires places { Places table.now n w places.old }
    ensures value { result ≡ (rules_of table.now).inside v w }
    ensures places_2 { Places table.now n w places.new }
{
    if sets::of_sets(table, n, v) {
        sets::has_met(table, n, v, w)
    } else {
        stays_listed(table, n, v, w, places)
    }
}

// Of a row that lists slices: site v of w has a slice inside w, at its place or behind it. Its place moves on to the first such slice, which is held beside it.
fn moves_listed(
    table: &[u64],
    n: usize,
    v: usize,
    w: u64,
    places: &mut [u8; 64],
    held: &mut [u64; 64],
) -> bool
    requires rows { Rows table.now n }
    requires v_lt_n { v < n }
    requires listed_row { ListedRow table.now n v }
    requires v { v ∈ w }
    requires places { Places table.now n w places.old }
    requires slices_held { SlicesHeld table.now n w held.old }
    ensures value { result ≡ (rules_of table.now).inside v w }
    ensures places_2 { Places table.now n w places.new }
    ensures slices_held_2 { SlicesHeld table.now n w held.new }
{
    let i = sets::next_inside(table, n, v, w, places[v]);
    if i < table[63 * v] as usize {
        places[v] = i as u8;
        held[v] = table[63 * v + 1 + i];
        return true;
    }
    false
}

// Of a row of sets: site v of w has a slice inside w. Then w is held.
fn moves_met(table: &[u64], n: usize, v: usize, w: u64, held: &mut [u64; 64]) -> bool
    requires rows { Rows table.now n }
    requires v_lt_n { v < n }
    requires v_value { of_sets table.now v ≡ true }
    requires slices_held { SlicesHeld table.now n w held.old }
    ensures value { result ≡ (rules_of table.now).inside v w }
    ensures slices_held_2 { SlicesHeld table.now n w held.new }
{
    if sets::has_met(table, n, v, w) {
        held[v] = w;
        return true;
    }
    false
}

// Site v of w has a slice inside w. A set that holds it is kept.
fn moves_held(
    table: &[u64],
    n: usize,
    v: usize,
    w: u64,
    places: &mut [u8; 64],
    held: &mut [u64; 64],
) -> bool
    requires rows { Rows table.now n }
    requires v_lt_n { v < n }
    requires v { v ∈ w }
    requires places { Places table.now n w places.old }
    requires slices_held { SlicesHeld table.now n w held.old }
    ensures value { result ≡ (rules_of table.now).inside v w }
    ensures places_2 { Places table.now n w places.new }
    ensures slices_held_2 { SlicesHeld table.now n w held.new }
{
    if sets::of_sets(table, n, v) {
        moves_met(table, n, v, w, held)
    } else {
        moves_listed(table, n, v, w, places, held)
    }
}

// Site v of w has a slice inside w. If what is held for it is inside w, so is a slice, and neither table nor place is read.
fn stays_held(
    table: &[u64],
    n: usize,
    v: usize,
    w: u64,
    places: &mut [u8; 64],
    held: &mut [u64; 64],
) -> bool
    requires rows { Rows table.now n }
    requires v_lt_n { v < n }
    requires v { v ∈ w }
    requires places { Places table.now n w places.old }
    requires slices_held { SlicesHeld table.now n w held.old }
    ensures value { result ≡ (rules_of table.now).inside v w }
    ensures places_2 { Places table.now n w places.new }
    ensures slices_held_2 { SlicesHeld table.now n w held.new }
{
    masks::within(held[v], w) || moves_held(table, n, v, w, places, held)
}

// Of a row that lists slices, in the first round from w: the empty set if one is inside w, else the set of v alone. Its place is the first such slice.
fn goes_listed(table: &[u64], n: usize, v: usize, w: u64, places: &mut [u8; 64]) -> u64
    requires rows { Rows table.now n }
    requires v_lt_n { v < n }
    requires listed_row { ListedRow table.now n v }
    requires places_len { length places.old ≡ 64 }
    ensures value { result ≡ cond ((rules_of table.now).inside v w) 0 (single v) }
    ensures placed { Placed table.now w v places.old places.new }
{
    let first = sets::next_inside(table, n, v, w, 0);
    places[v] = first as u8;
    if first < table[63 * v] as usize {
        0
    } else {
        masks::single(v as u64)
    }
}

// Of a row of sets, in the first round from w: the empty set if site v has a slice inside w, else the set of v alone.
fn goes_unmet(table: &[u64], n: usize, v: usize, w: u64) -> u64
    requires rows { Rows table.now n }
    requires v_lt_n { v < n }
    requires v_value { of_sets table.now v ≡ true }
    ensures { result ≡ cond ((rules_of table.now).inside v w) 0 (single v) }
{
    if sets::has_met(table, n, v, w) {
        0
    } else {
        masks::single(v as u64)
    }
}

// Site v in the first round from w: the empty set if it has a slice inside w, else the set of v alone. If it lists slices, its place is the first such slice.
fn goes(table: &[u64], n: usize, v: usize, w: u64, places: &mut [u8; 64]) -> u64
    requires rows { Rows table.now n }
    requires v_lt_n { v < n }
    requires places_len { length places.old ≡ 64 }
    ensures value { result ≡ cond ((rules_of table.now).inside v w) 0 (single v) }
    ensures placed { Placed table.now w v places.old places.new }
{
    if sets::of_sets(table, n, v) {
        goes_unmet(table, n, v, w)
    } else {
        goes_listed(table, n, v, w, places)
    }
}

// The first member of a set that is not empty.
fn first_member(m: u64) -> usize
    requires { m ≡ 0 → ⊥ }
    ensures { (result ≡ lowest m) × (result ∈ m) }
{
    m.trailing_zeros() as usize
}

// A set that is not empty, without its first member.
fn but_first(m: u64) -> u64
    requires { m ≡ 0 → ⊥ }
    ensures { result ≡ minus m (single (lowest m)) }
{
    m & (m - 1)
}

// The first round from w: the sites that stay, asked member by member. Who stays gets its place.
pub fn first_round(table: &[u64], n: usize, w: u64, places: &mut [u8; 64]) -> u64
    requires rows { Rows table.now n }
    requires places_len { length places.old ≡ 64 }
    ensures { (result ≡ round (rules_of table.now).inside n w) × Places table.now n result places.new }
{
    let mut stay = w & masks::all_below(n as u64);
    let mut rest = stay;
    while rest != 0 {
        let v = first_member(rest);
        stay = masks::minus(stay, goes(table, n, v, w, places));
        rest = but_first(rest);
    }
    stay
}

// A later round from w: the sites that stay. A member whose held slice is still inside w is not asked.
pub fn round_from(
    table: &[u64],
    n: usize,
    w: u64,
    places: &mut [u8; 64],
    held: &mut [u64; 64],
) -> u64
    requires rows { Rows table.now n }
    requires places { Places table.now n w places.old }
    requires slices_held { SlicesHeld table.now n w held.old }
    ensures value { result ≡ round (rules_of table.now).inside n w }
    ensures places_2 { Places table.now n result places.new }
    ensures slices_held_2 { SlicesHeld table.now n result held.new }
{
    let mut stay = w & masks::all_below(n as u64);
    let mut rest = stay;
    while rest != 0 {
        let v = first_member(rest);
        if !stays_held(table, n, v, w, places, held) {
            stay = masks::minus(stay, masks::single(v as u64));
        }
        rest = but_first(rest);
    }
    stay
}

// One sweep through w: each member is asked whether it has a slice inside what is left of w, and goes at once if it has none. The rounds are not told apart.
pub fn sweep_through(table: &[u64], n: usize, w: u64, places: &mut [u8; 64]) -> u64
    requires rows { Rows table.now n }
    requires places { Places table.now n w places.old }
    ensures { Swept (rules_of table.now).inside n w result × Places table.now n result places.new }
{
    let mut left = w & masks::all_below(n as u64);
    let mut rest = left;
    while rest != 0 {
        let v = first_member(rest);
        if !stays(table, n, v, left, places) {
            left = masks::minus(left, masks::single(v as u64));
        }
        rest = but_first(rest);
    }
    left
}
