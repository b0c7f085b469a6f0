// A site's sets as a row of 63 numbers: whether the root is met, and the row that a block gives.
#![tactic(auto)]

ghost use Rattle.std.specs.Prelude.{cond, ◌++◌, ◌≡◌, ◌<◌, ◌≤◌, leb, length, get_or, drop};
ghost use Rattle.std.specs.Int.Bits.{bit_and};
ghost use Rattle.masks.specs.Mask.{size};
ghost use Rattle.threshold_sets.specs.Met.{members_at, set_at, root_met};
ghost use Rattle.threshold_row.specs.Inner.Row.{pair_in, sets_of, four_at, masks_of, sets_row};
ghost use Rattle.threshold_row.specs.Inner.Seen.{Tells};

// How many sets are met, and the place behind them.
#[derive(Clone, Copy)]
struct Seen {
    met: u64,
    next: usize,
}

// How many of the plain sites are present.
fn present(plain: u64, u: u64) -> u64
    ensures { (result ≡ size (bit_and plain u)) × (result ≤ 64) }
{
    u64::count_ones(plain & u) as u64
}

// Threshold and number of inner sets of set i.
fn pair(m: &[u64], i: usize) -> u64
    requires m_len { length m.now ≡ 63 }
    requires i_bound { i < 49 }
    ensures { (result ≡ pair_in m.now i) × (result < 65536) }
{
    (m[50 + i / 4] >> (16 * (i % 4)) as u64) % 65536
}

// A set with this threshold of which so many are met or present, and the place behind it.
fn reached(threshold: u64, many: u64, next: usize) -> Seen
    ensures { (result.met ≡ cond (leb threshold many) 1 0) × (result.next ≡ next) × (result.met ≤ 1) }
{
    if threshold <= many {
        return Seen { met: 1, next };
    }
    Seen { met: 0, next }
}

// Set i, with so many levels left: it is met through its members. One without inner sets asks nobody.
#[cycle(members_at_set_at)]
fn set_at(m: &[u64], many: usize, u: u64, levels: u64, i: usize) -> Seen
    requires m_len { length m.now ≡ 63 }
    requires many_value { many ≡ (sets_of m.now).count }
    requires many_bound { many ≤ 49 }
    requires i_lt_many { i < many }
    ensures { Tells result.met result.next (set_at (sets_of m.now) u levels i) × (result.met ≤ 1) × (i < result.next) }
{
    if levels == 0 {
        return Seen {
            met: 0,
            next: i + 1,
        };
    }
    let two = pair(m, i);
    let here = present(m[1 + i], u);
    if two < 256 {
        return reached(two % 256, here, i + 1);
    }
    let below = members_at(m, many, u, levels - 1, i + 1, two / 256);
    reached(two % 256, here + below.met, below.next)
}

// The k sets from place i on: members are met through their sets.
#[cycle(members_at_set_at)]
fn members_at(m: &[u64], many: usize, u: u64, levels: u64, i: usize, k: u64) -> Seen
    requires m_len { length m.now ≡ 63 }
    requires many_value { many ≡ (sets_of m.now).count }
    requires many_bound { many ≤ 49 }
    requires k_bound { k ≤ 255 }
    ensures { Tells result.met result.next (members_at (sets_of m.now) u (set_at (sets_of m.now) u levels) k i)
        × (result.met ≤ k) × (i ≤ result.next) }
{
    if k == 0 {
        return Seen { met: 0, next: i };
    }
    if many <= i {
        return Seen { met: 0, next: i };
    }
    let one = set_at(m, many, u, levels, i);
    let rest = members_at(m, many, u, levels, one.next, k - 1);
    Seen {
        met: one.met + rest.met,
        next: rest.next,
    }
}

// The root set of the row is met by u.
pub fn is_met(m: &[u64], u: u64) -> bool
    requires m_len { length m.now ≡ 63 }
    requires bound { 65 ≤ get_or m.now 0 0 }
    requires m_bound { get_or m.now 0 0 ≤ 113 }
    ensures { result ≡ root_met (sets_of m.now) u }
{
    let root = set_at(m, (m[0] - 64) as usize, u, 4, 0);
    root.met == 1
}

// Threshold and number of inner sets of the sets 4 k to 4 k + 3 of a block, in one number.
fn four(b: &[u8], k: usize) -> u64
    requires b_len { length b.now ≡ 512 }
    requires k_bound { k < 12 }
    ensures { result ≡ four_at b.now k }
{
    let at = 8 + 40 * k;
    le::get16(b, at) as u64
        + (65536 * (le::get16(b, at + 10) as u64)
            + (4294967296 * (le::get16(b, at + 20) as u64)
                + 281474976710656 * (le::get16(b, at + 30) as u64)))
}

// The count and the 49 masks of a block's row.
fn load_masks(b: &[u8], m: &mut [u64])
    requires b_len { length b.now ≡ 512 }
    requires m_len { length m.old ≡ 63 }
    ensures { m.new ≡ masks_of b.now 49 ++ drop 50 m.old }
{
    m[0] = 64 + le::get16(b, 4) as u64;
    for i in 0..49 {
        m[1 + i] = le::get64(b, 10 + 10 * i);
    }
}

// The row of the sets that a block holds.
pub fn load_row(b: &[u8], m: &mut [u64])
    requires b_len { length b.now ≡ 512 }
    requires m_len { length m.old ≡ 63 }
    ensures { m.new ≡ sets_row b.now }
{
    load_masks(b, m);
    for k in 0..12 {
        m[50 + k] = four(b, k);
    }
    m[62] = le::get16(b, 488) as u64;
}
