// The questions that the voting asks of a checked table, the receiver first.
#![tactic(auto)]

ghost use Rattle.std.specs.Prelude.{◌≡◌, ◌<◌, length};
ghost use Rattle.asking.specs.Inner.{Asked, Known, bounded_by, hopeless};
ghost use Rattle.sets.specs.Inner.Rows.{Rows, row_questions};

// The receiver belongs to the largest quorum inside w.
pub fn in_quorum(table: &[u64], n: usize, receiver: usize, w: u64) -> bool
    requires rows { Rows table.now n }
    requires receiver_lt_n { receiver < n }
    ensures { result ≡ (row_questions table.now n).in_quorum receiver w }
{
    rounds::in_largest(table, n, receiver, w)
}

// The set w blocks the receiver.
pub fn blocked(table: &[u64], n: usize, receiver: usize, w: u64) -> bool
    requires rows { Rows table.now n }
    requires receiver_lt_n { receiver < n }
    ensures { result ≡ (row_questions table.now n).blocked receiver w }
{
    sets::blocks(table, n, w, receiver)
}

// Site u has, as the receiver sees it, some slice inside w.
pub fn has_slice(table: &[u64], n: usize, receiver: usize, u: usize, w: u64) -> bool
    requires rows { Rows table.now n }
    requires u_lt_n { u < n }
    ensures { result ≡ (row_questions table.now n).has_slice receiver u w }
{
    sets::has_slice(table, n, u, w)
}

// What is left of w: if w is inside the larger set, what it has in common with that set's bound.
#[tactic(auto, unfolding(crate::specs::Inner::bounded_by))]
fn bounded(w: u64, larger: u64, bound: u64) -> u64
    ensures { result ≡ bounded_by larger bound w }
{
    if masks::within(w, larger) {
        w & bound
    } else {
        w
    }
}

// Before a second search the largest quorum inside the larger set is searched for: it bounds all others. If it is the larger set itself, it bounds nothing, and
// is not kept.
fn bound(table: &[u64], n: usize, asked: &mut [u64; 4])
    requires rows { Rows table.now n }
    requires asked { Asked (row_questions table.now n) n asked.old }
    ensures { Asked (row_questions table.now n) n asked.new }
{
    let larger = asked[2];
    if asked[0] == 0 || larger != asked[3] {
        return;
    }
    let l = rounds::largest_set(table, n, larger);
    asked[3] = l;
    if l == larger {
        asked[2] = 0;
    }
}

// The receiver belongs to the largest quorum inside w. The set asked last and its largest quorum are kept, and what bounds all sets inside a larger one.
pub fn belongs(table: &[u64], n: usize, receiver: usize, w: u64, asked: &mut [u64; 4]) -> bool
    requires rows { Rows table.now n }
    requires receiver_lt_n { receiver < n }
    requires asked { Asked (row_questions table.now n) n asked.old }
    ensures value { result ≡ (row_questions table.now n).in_quorum receiver w }
    ensures asked_2 { Asked (row_questions table.now n) n asked.new }
{
    let left = bounded(w, asked[2], asked[3]);
    if !masks::has(left, receiver as u64) || !sets::has_slice(table, n, receiver, left) {
        return false;
    }
    bound(table, n, asked);
    let l = rounds::largest_set(table, n, bounded(w, asked[2], asked[3]));
    asked[0] = w;
    asked[1] = l;
    masks::has(l, receiver as u64)
}

// The receiver belongs to no quorum inside w: it is not in w, or not in what is known to bound w.
pub fn is_hopeless(receiver: usize, w: u64, known: &[u64; 4]) -> bool
    requires receiver_bound { receiver < 64 }
    requires known_len { length known.now ≡ 4 }
    ensures { result ≡ hopeless known.now receiver w }
{
    !masks::has(bounded(w, known[0], known[1]), receiver as u64)
}

// A set that was asked in vain is put to the others. After 64 that were not bounded, the largest quorum inside all of them together is searched for: it bounds
// them, and what is asked of sites that heard no more.
pub fn note(table: &[u64], n: usize, w: u64, known: &mut [u64; 4])
    requires rows { Rows table.now n }
    requires known { Known (row_questions table.now n) known.old }
    ensures { Known (row_questions table.now n) known.new }
{
    if masks::within(w, known[0]) {
        return;
    }
    let all = known[2] | w;
    known[2] = all;
    let count = known[3];
    if count < 64 {
        known[3] = count + 1;
        return;
    }
    known[3] = 0;
    let l = rounds::largest_set(table, n, all);
    known[0] = all;
    known[1] = l;
}
