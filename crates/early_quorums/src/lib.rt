// Which sets of the first six sites are quorums, without a list of all sets: one word has a bit for each of these 64 sets.
#![tactic(auto)]

ghost use Rattle.std.specs.Prelude.{◌≡◌, ◌<◌, ◌*◌, length};
ghost use Rattle.ground.specs.Search.{least};
ghost use Rattle.sets.specs.Quorum.{quorum};
ghost use Rattle.early_quorums.specs.Inner.{Sets, Inside, Held};
ghost use Rattle.sets.specs.Inner.Rows.{Rows, ListedRow, rules_of};

// The sets that are a slice that site v lists. Slices ascend, so that behind one that is no such set there is none.
fn slices_listed(table: &[u64], n: usize, v: usize) -> u64
    requires table_len { length table.now ≡ 63 * n }
    requires listed_row { ListedRow table.now n v }
    requires v_lt_n { v < n }
    ensures { Sets table.now v 0 result }
{
    let many = table[63 * v] as usize;
    let mut sets = 0u64;
    for i in 0..many {
        let q = table[63 * v + 1 + i];
        if 64 <= q {
            return sets;
        }
        sets |= masks::single(q);
    }
    sets
}

// The sets that have a slice of site v inside, where its row lists its slices: a slice is inside each set that it reaches by one site more.
fn inside_listed(table: &[u64], n: usize, v: usize) -> u64
    requires table_len { length table.now ≡ 63 * n }
    requires listed_row { ListedRow table.now n v }
    requires v_lt_n { v < n }
    ensures { Sets table.now v 6 result }
{
    let mut sets = slices_listed(table, n, v);
    for x in 0..6 {
        sets |= (sets & set_words::without(x)) << masks::single(x as u64);
    }
    sets
}

// The sets that have a slice of site v inside; none if there is no such site.
fn inside(table: &[u64], n: usize, v: usize) -> u64
    requires { Rows table.now n }
    ensures { Inside (rules_of table.now) v result }
{
    if n <= v {
        return 0;
    }
    if sets::of_sets(table, n, v) {
        return inside_words::met_word(table, n, v, 0);
    }
    inside_listed(table, n, v)
}

// The sets in which each member has a slice.
fn held(table: &[u64], n: usize) -> u64
    requires { Rows table.now n }
    ensures { Held (rules_of table.now) 6 result }
{
    let mut sets = u64::MAX;
    for v in 0..6 {
        sets &= set_words::without(v) | inside(table, n, v);
    }
    sets
}

// The smallest quorum among them, 64 if there is none.
pub fn first(table: &[u64], n: usize) -> u64
    requires { Rows table.now n }
    ensures { result ≡ least 64 (quorum (rules_of table.now).inside n) }
{
    u64::from(masks::minus(held(table, n), 1).trailing_zeros())
}
