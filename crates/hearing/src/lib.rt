// A taken call: what the receiver hears, and the state after it.
#![tactic(auto)]

ghost use Rattle.std.specs.Prelude.{◌≡◌, ◌<◌, ◌≤◌, length};
ghost use Rattle.rules.specs.State.{votes, accepts, width, get};
ghost use Rattle.rules.specs.Rules.{hears, taken};
ghost use Rattle.rules.specs.Inner.{InRange, Since};
ghost use Rattle.sets.specs.Inner.Rows.{Rows, row_questions};
ghost use Rattle.votes.specs.Call.{call};

// The site votes, and hears its own vote.
fn vote(n: usize, state: &mut [u64], v: usize, side: usize)
    requires state_len { length state.old ≡ width n }
    requires n_bound { n ≤ 64 }
    requires v_lt_n { v < n }
    requires side_bound { side < 2 }
    ensures { state.new ≡ hears n (call 0 v v side) state.old }
{
    let m = masks::single(v as u64);
    places::put(state, places::voted(n, side), m);
    places::put(state, places::votes(side, v), m);
}

// What the receiver hears, by the kind of the call.
pub fn hear(n: usize, state: &mut [u64], kind: usize, from: usize, to: usize, side: usize)
    requires state_len { length state.old ≡ width n }
    requires n_bound { n ≤ 64 }
    requires in_range { InRange n (call kind from to side) }
    ensures { state.new ≡ hears n (call kind from to side) state.old }
{
    if kind == 0 {
        vote(n, state, to, side);
        return;
    }
    let m = masks::single(from as u64);
    if kind == 1 {
        places::put(state, places::votes(side, to), m);
        return;
    }
    places::put(state, places::accepts(side, to), m);
}

// The state after a taken call: the receiver alone is worked out again, for the call's side, and asked only what the call has changed.
pub fn take(
    table: &[u64],
    n: usize,
    state: &mut [u64],
    kind: usize,
    from: usize,
    to: usize,
    side: usize,
)
    requires rows { Rows table.now n }
    requires state_len { length state.old ≡ width n }
    requires in_range { InRange n (call kind from to side) }
    requires since { Since (row_questions table.now n) n from to side (get state.old (votes side to)) (get state.old (accepts side to)) state.old }
    ensures { state.new ≡ taken (row_questions table.now n) n (call kind from to side) state.old }
{
    let votes_before = state[places::votes(side, to)];
    let accepts_before = state[places::accepts(side, to)];
    hear(n, state, kind, from, to, side);
    accepting::now_accepts(
        table,
        n,
        state,
        from,
        to,
        side,
        votes_before,
        accepts_before,
    );
    confirming::now_confirms(table, n, state, from, to, side, accepts_before);
}
