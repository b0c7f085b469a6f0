// What is at stake when sites break, of a checked table of at most 12 sites.
#![tactic(auto)]

ghost use Rattle.std.specs.Prelude.{◌≡◌, ◌&&◌, ◌≤◌, ◌<◌, ltb};
ghost use Rattle.masks.specs.Mask.{size};
ghost use Rattle.risk.specs.Risk.{taken_along, ruinous, first_ruin};
ghost use Rattle.sets.specs.Inner.Rows.{Rows, rules_of};

// How many other sites are befouled if site v alone is faulty.
pub fn taken_along(table: &[u64], n: usize, v: u64) -> u32
    requires rows { Rows table.now n }
    requires n_bound { n ≤ 12 }
    requires v_lt_n { v < n }
    ensures { result ≡ taken_along (rules_of table.now) n v }
{
    let alone = masks::single(v);
    let intact = intact_sites::intact(table, n, alone);
    let befouled = masks::minus(masks::all_below(n as u64), intact);
    masks::size(masks::minus(befouled, alone))
}

// The set f has fewer members than the best so far, and leaves nobody intact. A set that has no fewer is not asked.
fn is_better(table: &[u64], n: usize, f: u64, best: u64) -> bool
    requires rows { Rows table.now n }
    requires n_bound { n ≤ 12 }
    ensures { result ≡ ltb (size f) (size best) && ruinous (rules_of table.now) n f }
{
    masks::size(f) < masks::size(best) && intact_sites::intact(table, n, f) == 0
}

// The lowest of the smallest sets of faulty sites that leave nobody intact. All sites together are such a set.
pub fn first_ruin(table: &[u64], n: usize) -> u64
    requires rows { Rows table.now n }
    requires n_bound { n ≤ 12 }
    ensures { result ≡ first_ruin (rules_of table.now) n }
{
    let end = masks::single(n as u64);
    let mut best = masks::all_below(n as u64);
    for f in 0..end {
        if is_better(table, n, f, best) {
            best = f;
        }
    }
    best
}
