// A later pass over a list of calls, which looks at the calls that wait alone.
#![tactic(auto)]

ghost use Rattle.std.specs.Prelude.{◌≡◌, ◌+◌, ◌*◌, ◌<◌, length, get_or};
ghost use Rattle.rules.specs.Inner.{row_vote};
ghost use Rattle.pass.specs.Calls.{calls, call_at};
ghost use Rattle.pass_again.specs.Inner.{Again, Waited, Waiting, PassedAgain};
ghost use Rattle.asking.specs.Inner.{Known};
ghost use Rattle.sets.specs.Inner.Rows.{Rows, row_questions};

// Whether a call that has waited changed the state, and whether it waits still.
#[derive(Clone, Copy)]
struct Turn {
    changed: bool,
    waits: bool,
}

// Call i again, that has waited: its answer byte is 15 already. It was refused with 15 once, so that it can be refused with nothing else: it is taken if its
// sender has sent it now.
fn work_again(
    table: &[u64],
    n: usize,
    faulty: u64,
    list: &[u8],
    i: usize,
    state: &mut [u64],
    answers: &mut [u8],
    known: &mut [u64; 4],
) -> Turn
    requires rows { Rows table.now n }
    requires fact { (row_vote table.now n faulty).Sound state.old }
    requires i_in_bounds { 4 * i + 3 < length list.now }
    requires i_in_bounds_2 { i < length answers.old }
    requires i_value { get_or answers.old i 0 ≡ 15 }
    requires waited { Waited (row_vote table.now n faulty) (call_at list.now i) }
    requires known { Known (row_questions table.now n) known.old }
    ensures again { Again (row_vote table.now n faulty) (call_at list.now i) i
        state.old answers.old result.changed result.waits state.new answers.new }
    ensures known_2 { Known (row_questions table.now n) known.new }
{
    let at = 4 * i;
    let kind = usize::from(list[at]);
    let from = usize::from(list[at + 1]);
    let side = usize::from(list[at + 3]);
    if !answers::has_sent(n, state, kind, from, side) {
        return Turn {
            changed: false,
            waits: true,
        };
    }
    let to = usize::from(list[at + 2]);
    answers[i] = 0;
    let changed = taking::change(table, n, faulty, state, kind, from, to, side, known);
    Turn {
        changed,
        waits: false,
    }
}

// Whether a pass changed the state, and how many calls wait still.
#[derive(Clone, Copy)]
pub struct Round {
    pub changed: bool,
    pub count: usize,
}

// One pass more: only the calls that wait can change anything or answer otherwise.
pub fn over_waiting(
    table: &[u64],
    n: usize,
    faulty: u64,
    list: &[u8],
    state: &mut [u64],
    answers: &mut [u8],
    waiting: &mut [u16],
    count: usize,
    known: &mut [u64; 4],
) -> Round
    requires rows { Rows table.now n }
    requires known { Known (row_questions table.now n) known.old }
    requires waiting { Waiting (row_vote table.now n faulty) list.now state.old answers.old count waiting.old }
    ensures passed_again { PassedAgain (row_vote table.now n faulty) (calls list.now)
        state.old count result.changed result.count state.new answers.new waiting.new }
    ensures known_2 { Known (row_questions table.now n) known.new }
{
    let mut changed = false;
    let mut left: usize = 0;
    for k in 0..count {
        let i = waiting::place(waiting[k]);
        let turn = work_again(table, n, faulty, list, i, state, answers, known);
        changed |= turn.changed;
        left = waiting::keep(waiting, left, i, turn.waits);
    }
    Round {
        changed,
        count: left,
    }
}
