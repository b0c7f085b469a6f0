// What the receiver of a call accepts: it is asked only what has changed since the rules were last asked of it.
#![tactic(auto)]

ghost use Rattle.std.specs.Prelude.{◌≡◌, ◌<◌, length};
ghost use Rattle.rules.specs.State.{width};
ghost use Rattle.rules.specs.Rules.{only, now_accepts};
ghost use Rattle.rules.specs.Inner.{Since};
ghost use Rattle.sets.specs.Inner.Rows.{Rows, row_questions};

// The site alone if b, else nobody.
pub fn only(b: bool, v: usize) -> u64
    requires { v < 64 }
    ensures { result ≡ only b v }
{
    if b {
        return masks::single(v as u64);
    }
    0
}

// The receiver accepts if the rule says so, and hears its own accept. If it has accepted, nothing is asked.
pub fn now_accepts(
    table: &[u64],
    n: usize,
    state: &mut [u64],
    sender: usize,
    receiver: usize,
    side: usize,
    votes_before: u64,
    accepts_before: u64,
)
    requires rows { Rows table.now n }
    requires state_len { length state.old ≡ width n }
    requires sender_lt_n { sender < n }
    requires receiver_lt_n { receiver < n }
    requires side_bound { side < 2 }
    requires since { Since (row_questions table.now n) n sender receiver side votes_before accepts_before state.old }
    ensures { state.new ≡ now_accepts (row_questions table.now n) n receiver side state.old }
{
    if masks::has(state[places::accepted(n, side)], receiver as u64) {
        return;
    }
    let votes = state[places::votes(side, receiver)];
    let accepts = state[places::accepts(side, receiver)];
    let accepts_now = asking_since::now_accepting(
        table,
        n,
        sender,
        receiver,
        votes_before,
        accepts_before,
        votes,
        accepts,
    );
    let m = only(accepts_now, receiver);
    places::put(state, places::accepted(n, side), m);
    places::put(state, places::accepts(side, receiver), m);
}
