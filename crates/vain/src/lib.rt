// Votes that a receiver hears in vain: by what is known of the sets asked before, it belongs to no quorum inside all that it heard.
#![tactic(auto)]

ghost use Rattle.std.specs.Prelude.{◌≡◌, ◌<◌, ◌≤◌, length};
ghost use Rattle.asking.specs.Inner.{Known};
ghost use Rattle.rules.specs.State.{width};
ghost use Rattle.rules.specs.Inner.{InRange};
ghost use Rattle.sets.specs.Inner.Rows.{Rows, row_questions};
ghost use Rattle.vain.specs.Inner.{vain};
ghost use Rattle.votes.specs.Call.{call};

// A vote, and with its sender all that the receiver heard of the side has it in no quorum.
#[tactic(auto, unfolding(crate::specs::Inner::vain))]
pub fn is_vain(
    n: usize,
    state: &[u64],
    kind: usize,
    from: usize,
    to: usize,
    side: usize,
    known: &[u64; 4],
) -> bool
    requires state_len { length state.now ≡ width n }
    requires n_bound { n ≤ 64 }
    requires in_range { InRange n (call kind from to side) }
    requires known_len { length known.now ≡ 4 }
    ensures { result ≡ vain known.now (call kind from to side) state.now }
{
    if kind != 1 {
        return false;
    }
    let heard = state[places::votes(side, to)] | state[places::accepts(side, to)];
    asking::is_hopeless(to, heard | masks::single(from as u64), known)
}

// What a receiver that has not accepted heard is put to the sets asked in vain.
pub fn note(table: &[u64], n: usize, state: &[u64], to: usize, side: usize, known: &mut [u64; 4])
    requires rows { Rows table.now n }
    requires state_len { length state.now ≡ width n }
    requires to_lt_n { to < n }
    requires side_bound { side < 2 }
    requires known { Known (row_questions table.now n) known.old }
    ensures { Known (row_questions table.now n) known.new }
{
    if masks::has(state[places::accepted(n, side)], to as u64) {
        return;
    }
    let heard = state[places::votes(side, to)] | state[places::accepts(side, to)];
    asking::note(table, n, heard, known);
}
