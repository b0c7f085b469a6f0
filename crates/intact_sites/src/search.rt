// Dispensable sets and intact sites, searched for 64 sets at a time.
ghost use Rattle.std.specs.Prelude.{◌≡◌, true, ◌&&◌, cond, ◌<◌, ◌≤◌, eqb};
ghost use Rattle.std.specs.Int.Bits.{bit_and, bit_or};
ghost use Rattle.masks.specs.Mask.{minus, all_below};
ghost use Rattle.sets.specs.Quorum.{quorum};
ghost use Rattle.sets.specs.Inner.Rows.{Rows, rules_of};
ghost use Rattle.verdicts.specs.Verdicts.{dispensable, intact};
ghost use Rattle.set_words.specs.Inner.{Says, Above};
ghost use Rattle.inside_words.specs.Inner.{fits};
ghost use Rattle.contents.specs.Inner.{Contents};
ghost use Rattle.apart_words.specs.Inner.{quorum_with};
ghost use Rattle.known_pairs.specs.Inner.{Pair, Pairs};

// With gone deleted, a quorum that has no common site with p, of the sets that are quorums together with gone; none if there is none.
fn other(table: &[u64], n: usize, gone: u64, p: u64, sets: &mut [u64; 64]) -> u64
    requires p_bound { p < 4096 }
    requires p_value { quorum ((rules_of table.now).deleted gone) n p ≡ true }
    requires says { Says (quorum_with (rules_of table.now) n gone) sets.old }
    ensures { (result ≡ 0 → ⊥) → Pair (rules_of table.now) n gone p result }
{
    picked_words::lack(p, sets);
    masks::minus(picked_words::last_below(sets, 4095), gone)
}

// The quorum rest if the sites outside it are dispensable, else none, and then why is noted.
fn ask(
    table: &[u64],
    n: usize,
    rest: u64,
    above: &[u64; 64],
    kept: &[u64; 768],
    pairs: &mut [u64; 49],
) -> u64
    requires rows { Rows table.now n }
    requires n_bound { n ≤ 12 }
    requires rest_value { quorum (rules_of table.now).inside n rest ≡ true }
    requires above { Above 64 above.now }
    requires contents { Contents (rules_of table.now) (minus (all_below n) rest) 12 kept.now }
    requires pairs_2 { Pairs (rules_of table.now) n pairs.old }
    ensures spared { result ≡ cond (dispensable (rules_of table.now) n (minus (all_below n) rest)) rest 0 }
    ensures pairs { Pairs (rules_of table.now) n pairs.new }
{
    let gone = masks::minus(masks::all_below(n as u64), rest);
    let mut sets = [u64::MAX; 64];
    contents::fitting(table, gone, kept, &mut sets);
    let p = apart_words::first_apart(table, n, above, gone, &mut sets);
    if p == masks::single(n as u64) {
        return rest;
    }
    let q = other(table, n, gone, p, &mut sets);
    known_pairs::note(table, n, gone, p, q, pairs);
    0
}

// The same, but where those sites are known already, or a pair that is kept shows it, it is not asked.
fn spared(
    table: &[u64],
    n: usize,
    rest: u64,
    known: u64,
    above: &[u64; 64],
    kept: &[u64; 768],
    pairs: &mut [u64; 49],
) -> u64
    requires rows { Rows table.now n }
    requires n_bound { n ≤ 12 }
    requires rest_value { quorum (rules_of table.now).inside n rest ≡ true }
    requires above { Above 64 above.now }
    requires contents { Contents (rules_of table.now) (minus (all_below n) rest) 12 kept.now }
    requires pairs_2 { Pairs (rules_of table.now) n pairs.old }
    ensures spared { bit_or known result ≡ bit_or known (cond (dispensable (rules_of table.now) n (minus (all_below n) rest)) rest 0) }
    ensures pairs { Pairs (rules_of table.now) n pairs.new }
{
    if masks::within(rest, known) || known_pairs::is_known(table, n, rest, pairs) {
        return 0;
    }
    ask(table, n, rest, above, kept, pairs)
}

// The intact sites when those outside left are faulty: the quorums inside left are asked from the last on, until every site of left is found.
fn gather(
    table: &[u64],
    n: usize,
    left: u64,
    above: &[u64; 64],
    kept: &[u64; 768],
    quorums: &[u64; 64],
) -> u64
    requires rows { Rows table.now n }
    requires n_bound { n ≤ 12 }
    requires left_value { quorum (rules_of table.now).inside n left ≡ true }
    requires above { Above 64 above.now }
    requires contents { Contents (rules_of table.now) (minus (all_below n) left) 12 kept.now }
    requires says { Says (λ s. fits (rules_of table.now) (minus (all_below n) left) 12 s && eqb (bit_and s (minus (all_below n) left)) 0) quorums.now }
    ensures { result ≡ intact (rules_of table.now) n (minus (all_below n) left) }
{
    let mut pairs = [0u64; 49];
    let mut set = 0u64;
    let mut rest = left;
    while rest != 0 {
        set |= spared(table, n, rest, set, above, kept, &mut pairs);
        if set == left {
            return set;
        }
        rest = picked_words::last_below(quorums, rest);
    }
    set
}

// The intact sites when those outside the quorum left are faulty.
pub fn intact(table: &[u64], n: usize, left: u64) -> u64
    requires rows { Rows table.now n }
    requires n_bound { n ≤ 12 }
    requires left_value { quorum (rules_of table.now).inside n left ≡ true }
    ensures { result ≡ intact (rules_of table.now) n (minus (all_below n) left) }
{
    let f = masks::minus(masks::all_below(n as u64), left);
    let mut above = [0u64; 64];
    set_words::above(&mut above);
    let mut kept = [0u64; 768];
    contents::fill(table, n, f, &above, &mut kept);
    let mut sets = [u64::MAX; 64];
    contents::fitting(table, f, &kept, &mut sets);
    picked_words::lack(f, &mut sets);
    gather(table, n, left, &above, &kept, &sets)
}
