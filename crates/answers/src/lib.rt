// The answer of a call: 11, 13, 12, 14, 15, or taken.
#![tactic(auto)]

ghost use Rattle.std.specs.Prelude.{◌≡◌, cond, ◌<◌, ◌≤◌, eqb, length};
ghost use Rattle.masks.specs.Mask.{has};
ghost use Rattle.rules.specs.State.{voted, accepted, width, get};
ghost use Rattle.rules.specs.Rules.{out_of_range, crooked, against, unsent, answer};
ghost use Rattle.rules.specs.Inner.{InRange, heard};
ghost use Rattle.votes.specs.Call.{call};

use refusals::Refusal;

// A site at or above n, a kind over 2, a side over 1.
#[tactic(auto, unfolding(rules::specs::Rules::out_of_range))]
fn is_out_of_range(n: usize, kind: usize, from: usize, to: usize, side: usize) -> bool
    ensures { result ≡ out_of_range n (call kind from to side) }
{
    n <= from || n <= to || kind > 2 || side > 1
}

// A proposal whose from and to differ.
#[tactic(auto, unfolding(rules::specs::Rules::crooked))]
fn is_crooked(kind: usize, from: usize, to: usize, side: usize) -> bool
    ensures { result ≡ crooked (call kind from to side) }
{
    kind == 0 && from != to
}

// A proposal to a site that has voted for the other side.
#[tactic(auto, unfolding(rules::specs::Rules::against))]
fn is_against(n: usize, state: &[u64], kind: usize, from: usize, to: usize, side: usize) -> bool
    requires state_len { length state.now ≡ width n }
    requires n_bound { n ≤ 64 }
    requires in_range { InRange n (call kind from to side) }
    ensures { result ≡ against n (call kind from to side) state.now }
{
    kind == 0 && masks::has(state[places::voted(n, 1 - side)], to as u64)
}

// The sender has voted for the side, if the call is a vote, or accepted it.
pub fn has_sent(n: usize, state: &[u64], kind: usize, from: usize, side: usize) -> bool
    requires state_len { length state.now ≡ width n }
    requires n_bound { n ≤ 64 }
    requires le_kind { 1 ≤ kind }
    requires kind_bound { kind < 3 }
    requires from_bound { from < 64 }
    requires side_bound { side < 2 }
    ensures { result ≡ has (get state.now (cond (eqb kind 1) (voted n side) (accepted n side))) from }
{
    masks::has(state[places::sent_at(n, kind, side)], from as u64)
}

// A vote or accept that a correct sender has not sent.
fn is_unsent(
    n: usize,
    faulty: u64,
    state: &[u64],
    kind: usize,
    from: usize,
    to: usize,
    side: usize,
) -> bool
    requires state_len { length state.now ≡ width n }
    requires n_bound { n ≤ 64 }
    requires in_range { InRange n (call kind from to side) }
    ensures { result ≡ unsent n faulty (call kind from to side) state.now }
{
    if kind == 0 {
        return false;
    }
    let sent = state[places::sent_at(n, kind, side)];
    !masks::has(sent | faulty, from as u64)
}

// The first refusal of a call, or sound.
pub fn answer(
    n: usize,
    faulty: u64,
    state: &[u64],
    kind: usize,
    from: usize,
    to: usize,
    side: usize,
) -> Result<(), Refusal>
    requires state_len { length state.now ≡ width n }
    requires n_bound { n ≤ 64 }
    ensures { result ≡ answer n faulty (call kind from to side) state.now }
{
    if is_out_of_range(n, kind, from, to, side) {
        return Err(Refusal::Range(0));
    }
    if is_crooked(kind, from, to, side) {
        return Err(Refusal::Proposal);
    }
    if masks::has(faulty, to as u64) {
        return Err(Refusal::Receiver);
    }
    if is_against(n, state, kind, from, to, side) {
        return Err(Refusal::Voted);
    }
    if is_unsent(n, faulty, state, kind, from, to, side) {
        return Err(Refusal::Unsent);
    }
    Ok(())
}

// The bit that a call sets is set already.
pub fn is_heard(n: usize, state: &[u64], kind: usize, from: usize, to: usize, side: usize) -> bool
    requires state_len { length state.now ≡ width n }
    requires n_bound { n ≤ 64 }
    requires in_range { InRange n (call kind from to side) }
    ensures { result ≡ heard n (call kind from to side) state.now }
{
    if kind == 0 {
        masks::has(state[places::voted(n, side)], to as u64)
    } else {
        masks::has(state[places::heard_at(kind, side, to)], from as u64)
    }
}
