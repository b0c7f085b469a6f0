// A call on a sound state: its answer, and whether the state changed.
#![tactic(auto)]

ghost use Rattle.std.specs.Prelude.{◌≡◌, Ok};
ghost use Rattle.asking.specs.Inner.{Known};
ghost use Rattle.rules.specs.Rules.{answer};
ghost use Rattle.rules.specs.Sound.{Sound};
ghost use Rattle.rules.specs.Inner.{row_vote};
ghost use Rattle.sets.specs.Inner.Rows.{Rows, row_questions};
ghost use Rattle.votes.specs.Call.{call};
ghost use Rattle.votes.specs.Inner.{Works};

use refusals::Refusal;

// A call that is answered 0, on a sound state: whether it changes the state. A call whose bit is heard already changes nothing and is not worked out again, and
// of a vote that is heard in vain nothing else changes.
pub fn change(
    table: &[u64],
    n: usize,
    faulty: u64,
    state: &mut [u64],
    kind: usize,
    from: usize,
    to: usize,
    side: usize,
    known: &mut [u64; 4],
) -> bool
    requires rows { Rows table.now n }
    requires sound { Sound (row_questions table.now n) n faulty state.old }
    requires state_value { answer n faulty (call kind from to side) state.old ≡ Ok tt }
    requires known { Known (row_questions table.now n) known.old }
    ensures works { Works (row_vote table.now n faulty) (call kind from to side) state.old (Ok tt) result state.new }
    ensures known_2 { Known (row_questions table.now n) known.new }
{
    if answers::is_heard(n, state, kind, from, to, side) {
        return false;
    }
    if vain::is_vain(n, state, kind, from, to, side, known) {
        hearing::hear(n, state, kind, from, to, side);
        return true;
    }
    hearing::take(table, n, state, kind, from, to, side);
    vain::note(table, n, state, to, side, known);
    true
}

// The answer of a call, and whether it changed the state.
#[derive(Clone, Copy)]
pub struct Worked {
    pub answer: Result<(), Refusal>,
    pub changed: bool,
}

// One call on a sound state. `hearing::take` is called here and in `change`, so that it is a function of its own, and `change`, which asks first whether the
// call is heard already, is small enough to stand in a loop over calls.
pub fn work(
    table: &[u64],
    n: usize,
    faulty: u64,
    state: &mut [u64],
    kind: usize,
    from: usize,
    to: usize,
    side: usize,
) -> Worked
    requires rows { Rows table.now n }
    requires sound { Sound (row_questions table.now n) n faulty state.old }
    ensures { Works (row_vote table.now n faulty) (call kind from to side) state.old result.answer result.changed state.new }
{
    let a = answers::answer(n, faulty, state, kind, from, to, side);
    let Ok(()) = a else {
        return Worked {
            answer: a,
            changed: false,
        };
    };
    let heard = answers::is_heard(n, state, kind, from, to, side);
    if heard {
        return Worked {
            answer: a,
            changed: false,
        };
    }
    hearing::take(table, n, state, kind, from, to, side);
    Worked {
        answer: a,
        changed: true,
    }
}
