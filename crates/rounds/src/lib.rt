// The largest quorum inside a set of sites of a checked table, round by round; and where its rounds are not asked for, sweep by sweep.
#![tactic(auto)]

ghost use Rattle.std.specs.Prelude.{◌≡◌, ◌<◌};
ghost use Rattle.masks.specs.Mask.{has};
ghost use Rattle.sets.specs.Quorum.{largest, rounds};
ghost use Rattle.sets.specs.Inner.Rows.{Rows, rules_of};

// The set left and the number of rounds that dropped somebody.
#[derive(Clone, Copy)]
pub struct SetLeft {
    pub set: u64,
    pub rounds: u64,
}

// The largest quorum inside w, round by round. From the second round on the slice that held each member is kept.
pub fn largest(table: &[u64], n: usize, w: u64) -> SetLeft
    requires { Rows table.now n }
    ensures { (result.set ≡ largest (rules_of table.now).inside n w) × (result.rounds ≡ rounds (rules_of table.now).inside n w) }
{
    let mut places = [0u8; 64];
    let mut set = one_round::first_round(table, n, w, &mut places);
    if set == w {
        return SetLeft { set, rounds: 0 };
    }
    let mut held = [masks::all_below(n as u64); 64];
    let mut count = 1u64;
    loop {
        let next = one_round::round_from(table, n, set, &mut places, &mut held);
        if next == set {
            return SetLeft { set, rounds: count };
        }
        set = next;
        count += 1;
    }
}

// The largest quorum inside w, its rounds not counted: one round, and sweeps until one drops nobody.
pub fn largest_set(table: &[u64], n: usize, w: u64) -> u64
    requires { Rows table.now n }
    ensures { result ≡ largest (rules_of table.now).inside n w }
{
    let mut places = [0u8; 64];
    let mut set = one_round::first_round(table, n, w, &mut places);
    if set == w {
        return set;
    }
    loop {
        let left = one_round::sweep_through(table, n, set, &mut places);
        if left == set {
            return set;
        }
        set = left;
    }
}

// Site v belongs to the largest quorum inside w. Its own slices are asked first: the first round does not drop it then. The sweeps end with the one that does.
pub fn in_largest(table: &[u64], n: usize, v: usize, w: u64) -> bool
    requires rows { Rows table.now n }
    requires v_lt_n { v < n }
    ensures { result ≡ has (largest (rules_of table.now).inside n w) v }
{
    if !masks::has(w, v as u64) || !sets::has_slice(table, n, v, w) {
        return false;
    }
    let mut places = [0u8; 64];
    let mut set = one_round::first_round(table, n, w, &mut places);
    if set == w {
        return true;
    }
    loop {
        let stay = one_round::sweep_through(table, n, set, &mut places);
        if stay == set {
            return true;
        }
        if !masks::has(stay, v as u64) {
            return false;
        }
        set = stay;
    }
}
