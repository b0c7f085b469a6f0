// The clauses of 18 for one site and one side: the votes and accepts that it heard, and the masks voted, accepted and confirmed of that side.
#![tactic(auto)]

ghost use Rattle.std.specs.Prelude.{◌≡◌, ◌<◌};
ghost use Rattle.rules.specs.Rules.{accepting};
ghost use Rattle.rules.specs.Sound.{not_zero, not_own, not_rule, not_sent};
ghost use Rattle.asking.specs.Inner.{Asked};
ghost use Rattle.sets.specs.Inner.Rows.{Rows, row_questions};

// Anything but zero for a faulty receiver.
#[tactic(auto, unfolding(rules::specs::Sound::not_zero))]
pub fn is_not_zero(
    v: usize,
    votes: u64,
    accepts: u64,
    voted: u64,
    accepted: u64,
    confirmed: u64,
) -> bool
    requires { v < 64 }
    ensures { result ≡ not_zero v votes accepts voted accepted confirmed }
{
    votes != 0
        || accepts != 0
        || masks::has(voted, v as u64)
        || masks::has(accepted, v as u64)
        || masks::has(confirmed, v as u64)
}

// Own vote bit and voted mask differing; own accept bit and accepted mask differing.
#[tactic(auto, unfolding(rules::specs::Sound::not_own))]
pub fn is_not_own(v: usize, votes: u64, accepts: u64, voted: u64, accepted: u64) -> bool
    requires { v < 64 }
    ensures { result ≡ not_own v votes accepts voted accepted }
{
    masks::has(votes, v as u64) != masks::has(voted, v as u64)
        || masks::has(accepts, v as u64) != masks::has(accepted, v as u64)
}

// Site v accepts from the votes and accepts that it heard, its own accept not counted. If it is the set asked last, its answer is kept. `asking::belongs` is
// called here and in `is_confirming`, so that it is a function of its own, and these two stand in the walk over the sites.
fn is_accepting(
    table: &[u64],
    n: usize,
    v: usize,
    votes: u64,
    accepts: u64,
    asked: &mut [u64; 4],
) -> bool
    requires rows { Rows table.now n }
    requires v_lt_n { v < n }
    requires asked { Asked (row_questions table.now n) n asked.old }
    ensures value { result ≡ accepting (row_questions table.now n) v votes accepts }
    ensures asked_2 { Asked (row_questions table.now n) n asked.new }
{
    let others = masks::minus(accepts, masks::single(v as u64));
    if asking::blocked(table, n, v, others) {
        return true;
    }
    let w = votes | others;
    if !masks::has(w, v as u64) {
        return false;
    }
    if w == asked[0] {
        return masks::has(asked[1], v as u64);
    }
    asking::belongs(table, n, v, w, asked)
}

// Site v confirms from the accepts that it heard. If it is the set asked last, its answer is kept.
fn is_confirming(table: &[u64], n: usize, v: usize, accepts: u64, asked: &mut [u64; 4]) -> bool
    requires rows { Rows table.now n }
    requires v_lt_n { v < n }
    requires asked { Asked (row_questions table.now n) n asked.old }
    ensures value { result ≡ (row_questions table.now n).in_quorum v accepts }
    ensures asked_2 { Asked (row_questions table.now n) n asked.new }
{
    if !masks::has(accepts, v as u64) {
        return false;
    }
    if accepts == asked[0] {
        return masks::has(asked[1], v as u64);
    }
    asking::belongs(table, n, v, accepts, asked)
}

// Accepted or confirmed other than the rules give from what was heard.
#[tactic(auto, unfolding(rules::specs::Sound::not_rule, rules::specs::Rules::confirming))]
pub fn is_not_rule(
    table: &[u64],
    n: usize,
    v: usize,
    votes: u64,
    accepts: u64,
    accepted: u64,
    confirmed: u64,
    asked: &mut [u64; 4],
) -> bool
    requires rows { Rows table.now n }
    requires v_lt_n { v < n }
    requires asked { Asked (row_questions table.now n) n asked.old }
    ensures value { result ≡ not_rule (row_questions table.now n) v votes accepts accepted confirmed }
    ensures asked_2 { Asked (row_questions table.now n) n asked.new }
{
    masks::has(accepted, v as u64) != is_accepting(table, n, v, votes, accepts, asked)
        || masks::has(confirmed, v as u64) != is_confirming(table, n, v, accepts, asked)
}

// A vote or accept heard from a correct site that has not sent it.
#[tactic(auto, unfolding(rules::specs::Sound::not_sent))]
pub fn is_not_sent(faulty: u64, votes: u64, accepts: u64, voted: u64, accepted: u64) -> bool
    ensures { result ≡ not_sent faulty votes accepts voted accepted }
{
    !masks::within(masks::minus(votes, faulty), voted)
        || !masks::within(masks::minus(accepts, faulty), accepted)
}
