// Passes over a list of calls, from a fresh state, until one changes nothing.
#![tactic(auto)]

ghost use Rattle.std.specs.Prelude.{◌≡◌, ◌*◌, ◌≤◌, length};
ghost use Rattle.rules.specs.Inner.{row_vote};
ghost use Rattle.pass.specs.Calls.{calls};
ghost use Rattle.passes.specs.Inner.{Begun, Whole};
ghost use Rattle.asking.specs.Inner.{Known};
ghost use Rattle.sets.specs.Inner.Rows.{Rows, row_questions};

// Passes after a first one that changed the state, until one changes nothing: how many, the first and the last counted.
fn run_on(
    table: &[u64],
    n: usize,
    faulty: u64,
    list: &[u8],
    state: &mut [u64],
    answers: &mut [u8],
    waiting: &mut [u16],
    known: &mut [u64; 4],
) -> u64
    requires rows { Rows table.now n }
    requires known { Known (row_questions table.now n) known.old }
    requires begun { Begun (row_vote table.now n faulty) list.now state.old answers.old waiting.old }
    ensures { Whole (row_vote table.now n faulty) (calls list.now) result state.new answers.new }
{
    let mut count = waiting::gather(answers, waiting);
    let mut passes = 1u64;
    loop {
        let round = pass_again::over_waiting(
            table, n, faulty, list, state, answers, waiting, count, known,
        );
        passes += 1;
        if !round.changed {
            return passes;
        }
        count = round.count;
    }
}

// Passes from a fresh state until one changes nothing, in rooms of the right size, whatever they held: how many, that one counted.
pub fn run_fresh(
    table: &[u64],
    n: usize,
    faulty: u64,
    list: &[u8],
    state: &mut [u64],
    answers: &mut [u8],
) -> u64
    requires rows { Rows table.now n }
    requires state_len { length state.old ≡ (row_vote table.now n faulty).width }
    requires list_len { length list.now ≡ 4 * length answers.old }
    requires answers_len_bound { length answers.old ≤ 4096 }
    ensures { Whole (row_vote table.now n faulty) (calls list.now) result state.new answers.new }
{
    state.fill(0);
    let mut known = [0u64; 4];
    let changed = pass::over_all(table, n, faulty, list, state, answers, &mut known);
    if !changed {
        return 1;
    }
    let mut waiting = [0u16; 4096];
    run_on(
        table,
        n,
        faulty,
        list,
        state,
        answers,
        &mut waiting,
        &mut known,
    )
}
