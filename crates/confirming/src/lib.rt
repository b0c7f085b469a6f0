// What the receiver of a call confirms: it is asked only what has changed since the rules were last asked of it.
#![tactic(auto)]

ghost use Rattle.std.specs.Prelude.{◌≡◌, true, ◌<◌, length};
ghost use Rattle.masks.specs.Mask.{◌∈◌};
ghost use Rattle.rules.specs.State.{accepts, confirmed, width, get};
ghost use Rattle.rules.specs.Rules.{confirming, now_confirms};
ghost use Rattle.rules.specs.Inner.{New};
ghost use Rattle.sets.specs.Inner.Rows.{Rows, row_questions};

// The receiver confirms if the rule says so. If it has confirmed, nothing is asked.
pub fn now_confirms(
    table: &[u64],
    n: usize,
    state: &mut [u64],
    sender: usize,
    receiver: usize,
    side: usize,
    accepts_before: u64,
)
    requires rows { Rows table.now n }
    requires state_len { length state.old ≡ width n }
    requires sender_lt_n { sender < n }
    requires receiver_lt_n { receiver < n }
    requires side_bound { side < 2 }
    requires new { New sender receiver accepts_before (get state.old (accepts side receiver)) }
    requires receiver { confirming (row_questions table.now n) receiver accepts_before ≡ true → receiver ∈ get state.old (confirmed n side) }
    ensures { state.new ≡ now_confirms (row_questions table.now n) n receiver side state.old }
{
    if masks::has(state[places::confirmed(n, side)], receiver as u64) {
        return;
    }
    let accepts = state[places::accepts(side, receiver)];
    let confirms = asking_since::now_in_quorum(table, n, sender, receiver, accepts_before, accepts);
    let m = accepting::only(confirms, receiver);
    places::put(state, places::confirmed(n, side), m);
}
