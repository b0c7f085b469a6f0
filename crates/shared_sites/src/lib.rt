// Two quorums without a common site, of a checked table of at most 12 sites.
#![tactic(auto)]

ghost use Rattle.std.specs.Prelude.{◌≡◌, cond, ◌≤◌, eqb};
ghost use Rattle.verdicts.specs.Verdicts.{beside, first_apart};
ghost use Rattle.shared_sites.specs.Inner.{beside_first};
ghost use Rattle.sets.specs.Inner.Rows.{Rows, rules_of};

pub use verdicts::Pair;

// The largest quorum in the complement of p.
pub fn beside(table: &[u64], n: usize, p: u64) -> u64
    requires { Rows table.now n }
    ensures { result ≡ beside (rules_of table.now).inside n p }
{
    rounds::largest_set(table, n, masks::minus(masks::all_below(n as u64), p))
}

// The quorum of the smallest mask that has a quorum in its complement; 2^n if there is none.
pub fn first_apart(table: &[u64], n: usize) -> u64
    requires rows { Rows table.now n }
    requires n_bound { n ≤ 12 }
    ensures { result ≡ first_apart (rules_of table.now).inside n }
{
    let mut above = [0u64; 64];
    set_words::above(&mut above);
    let mut sets = [18446744073709551615u64; 64];
    inside_words::fitting(table, n, &above, &mut sets);
    apart_words::first_apart(table, n, &above, 0, &mut sets)
}

// The largest quorum in the complement of a set of the first six sites; none for 64, which stands for no set.
fn beside_early(table: &[u64], n: usize, p: u64) -> u64
    requires { Rows table.now n }
    ensures { result ≡ cond (eqb p 64) 0 (beside (rules_of table.now).inside n p) }
{
    if p == 64 {
        return 0;
    }
    beside(table, n, p)
}

// That quorum, and the largest in its complement, none if it is 2^n. The smallest quorum of the first six sites is asked before all sets are looked at.
pub fn two_apart(table: &[u64], n: usize) -> Pair
    requires rows { Rows table.now n }
    requires n_bound { n ≤ 12 }
    ensures first { result.first ≡ first_apart (rules_of table.now).inside n }
    ensures second { result.second ≡ beside_first (rules_of table.now).inside n }
{
    let early = early_quorums::first(table, n);
    let second = beside_early(table, n, early);
    if second != 0 {
        return Pair {
            first: early,
            second,
        };
    }
    let first = first_apart(table, n);
    if first == masks::single(n as u64) {
        return Pair { first, second: 0 };
    }
    Pair {
        first,
        second: beside(table, n, first),
    }
}
