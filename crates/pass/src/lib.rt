// One pass over a list of calls, given as bytes.
#![tactic(auto)]

ghost use Rattle.std.specs.Prelude.{◌≡◌, ◌+◌, ◌*◌, ◌<◌, length};
ghost use Rattle.rules.specs.Inner.{row_vote};
ghost use Rattle.pass.specs.Calls.{calls, call_at};
ghost use Rattle.pass.specs.Inner.{Passed};
ghost use Rattle.asking.specs.Inner.{Known};
ghost use Rattle.sets.specs.Inner.Rows.{Rows, row_questions};
ghost use Rattle.votes.specs.Inner.{Works};

use refusals::Refusal;

// Call i of the list, on a sound state.
pub fn work_at(
    table: &[u64],
    n: usize,
    faulty: u64,
    list: &[u8],
    i: usize,
    state: &mut [u64],
    known: &mut [u64; 4],
) -> taking::Worked
    requires rows { Rows table.now n }
    requires fact { (row_vote table.now n faulty).Sound state.old }
    requires i_in_bounds { 4 * i + 3 < length list.now }
    requires known { Known (row_questions table.now n) known.old }
    ensures works { Works (row_vote table.now n faulty) (call_at list.now i)
        state.old result.answer result.changed state.new }
    ensures known_2 { Known (row_questions table.now n) known.new }
{
    let at = 4 * i;
    let kind = usize::from(list[at]);
    let from = usize::from(list[at + 1]);
    let to = usize::from(list[at + 2]);
    let side = usize::from(list[at + 3]);
    let a = answers::answer(n, faulty, state, kind, from, to, side);
    let Ok(()) = a else {
        return taking::Worked {
            answer: a,
            changed: false,
        };
    };
    let changed = taking::change(table, n, faulty, state, kind, from, to, side, known);
    taking::Worked { answer: a, changed }
}

// One pass over the list, from the first call to the last: whether it changed the state. One answer a call.
pub fn over_all(
    table: &[u64],
    n: usize,
    faulty: u64,
    list: &[u8],
    state: &mut [u64],
    answers: &mut [u8],
    known: &mut [u64; 4],
) -> bool
    requires rows { Rows table.now n }
    requires fact { (row_vote table.now n faulty).Sound state.old }
    requires list_len { length list.now ≡ 4 * length answers.old }
    requires known { Known (row_questions table.now n) known.old }
    ensures passed { Passed (row_vote table.now n faulty) (calls list.now)
        state.old result state.new answers.new }
    ensures known_2 { Known (row_questions table.now n) known.new }
{
    let mut changed = false;
    for i in 0..answers.len() {
        let worked = work_at(table, n, faulty, list, i, state, known);
        let answer = worked.answer;
        answers[i] = refusals::code(answer);
        changed |= worked.changed;
    }
    changed
}
