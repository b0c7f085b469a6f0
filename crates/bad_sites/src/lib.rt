// Number 18, site by site: what the rules do not explain of a site, on one side or the other.
#![tactic(auto)]

ghost use Rattle.std.specs.Prelude.{◌≡◌, ◌<◌, ◌≤◌, length};
ghost use Rattle.ground.specs.Search.{some};
ghost use Rattle.rules.specs.State.{width};
ghost use Rattle.rules.specs.Sound.{bad_side, bad_site};
ghost use Rattle.asking.specs.Inner.{Asked};
ghost use Rattle.bad_sites.specs.Inner.{named_in, silent_site};
ghost use Rattle.sets.specs.Inner.Rows.{Rows, row_questions};

// One site and one side. A site that has nothing of the side is not asked further; the rules are asked last: they cost most.
#[tactic(auto, unfolding(rules::specs::Sound::bad_side))]
fn is_bad_side(
    table: &[u64],
    n: usize,
    faulty: u64,
    state: &[u64],
    v: usize,
    side: usize,
    asked: &mut [u64; 4],
) -> bool
    requires rows { Rows table.now n }
    requires state_len { length state.now ≡ width n }
    requires v_lt_n { v < n }
    requires side_bound { side < 2 }
    requires asked { Asked (row_questions table.now n) n asked.old }
    ensures value { result ≡ bad_side (row_questions table.now n) n faulty state.now v side }
    ensures asked_2 { Asked (row_questions table.now n) n asked.new }
{
    let votes = state[places::votes(side, v)];
    let accepts = state[places::accepts(side, v)];
    let voted = state[places::voted(n, side)];
    let accepted = state[places::accepted(n, side)];
    let confirmed = state[places::confirmed(n, side)];
    clauses::is_not_zero(v, votes, accepts, voted, accepted, confirmed)
        && (masks::has(faulty, v as u64)
            || clauses::is_not_own(v, votes, accepts, voted, accepted)
            || clauses::is_not_sent(faulty, votes, accepts, voted, accepted)
            || clauses::is_not_rule(table, n, v, votes, accepts, accepted, confirmed, asked))
}

// The site has heard nothing, and is not among those named by the masks.
#[tactic(auto, unfolding(crate::specs::Inner::silent_site, crate::specs::Inner::heard_by))]
fn is_silent(state: &[u64], n: usize, v: usize, named: u64) -> bool
    requires state_len { length state.now ≡ width n }
    requires n_bound { n ≤ 64 }
    requires v_lt_n { v < n }
    ensures { result ≡ silent_site named state.now v }
{
    let votes = state[places::votes(0, v)] | state[places::votes(1, v)];
    let accepts = state[places::accepts(0, v)] | state[places::accepts(1, v)];
    votes | accepts == 0 && !masks::has(named, v as u64)
}

// One site, both sides. A site that has nothing of either is not asked further.
fn is_bad_site(
    table: &[u64],
    n: usize,
    faulty: u64,
    state: &[u64],
    v: usize,
    named: u64,
    asked: &mut [u64; 4],
) -> bool
    requires rows { Rows table.now n }
    requires state_len { length state.now ≡ width n }
    requires v_lt_n { v < n }
    requires named_value { named ≡ named_in n state.now }
    requires asked { Asked (row_questions table.now n) n asked.old }
    ensures value { result ≡ bad_site (row_questions table.now n) n faulty state.now v }
    ensures asked_2 { Asked (row_questions table.now n) n asked.new }
{
    if is_silent(state, n, v, named) {
        return false;
    }
    for side in 0..2 {
        if is_bad_side(table, n, faulty, state, v, side, asked) {
            return true;
        }
    }
    false
}

// The sites named by the six masks.
fn named(n: usize, state: &[u64]) -> u64
    requires state_len { length state.now ≡ width n }
    requires n_bound { n ≤ 64 }
    ensures { result ≡ named_in n state.now }
{
    let voted = state[places::voted(n, 0)] | state[places::voted(n, 1)];
    let accepted = state[places::accepted(n, 0)] | state[places::accepted(n, 1)];
    let confirmed = state[places::confirmed(n, 0)] | state[places::confirmed(n, 1)];
    voted | accepted | confirmed
}

// Some site is bad. What was heard is best inside the larger set: its largest quorum then bounds all that are searched for.
pub fn some_bad_site(table: &[u64], n: usize, faulty: u64, state: &[u64], larger: u64) -> bool
    requires rows { Rows table.now n }
    requires state_len { length state.now ≡ width n }
    ensures { result ≡ some n (bad_site (row_questions table.now n) n faulty state.now) }
{
    let mut asked = [0, 0, larger, larger];
    let named = named(n, state);
    for v in 0..n {
        if is_bad_site(table, n, faulty, state, v, named, &mut asked) {
            return true;
        }
    }
    false
}
