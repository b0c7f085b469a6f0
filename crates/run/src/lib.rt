// The run of a list of calls, given as bytes: passes from first to last until a pass changes nothing. The table is checked first;
// the rest is asked of its rows.
#![tactic(auto)]

ghost use Rattle.std.specs.Prelude.{◌≡◌, length, ◌≤◌};
ghost use Rattle.sets.specs.Groups.{lists};
ghost use Rattle.sets.specs.Inner.Rows.{Rows};
ghost use Rattle.run.specs.Inner.{row_run_check, row_ran, row_state_into, row_answers_into};
ghost use Rattle.run.specs.Run.{run_check, ran, state_into, answers_into};

use refusals::Refusal;

// Of n sites: 10, 17, 9, for a list of so many bytes and rooms of so many numbers and bytes.
pub fn check_of(
    n: usize,
    faulty: u64,
    bytes: usize,
    state: usize,
    answers: usize,
) -> Result<(), Refusal>
    requires { n ≤ 64 }
    ensures { result ≡ row_run_check n faulty bytes state answers }
{
    sets::check_set(n, faulty)?;
    if bytes % 4 != 0 {
        return Err(Refusal::List);
    }
    if 16384 < bytes {
        return Err(Refusal::List);
    }
    if state < places::width(n) {
        return Err(Refusal::Room);
    }
    if answers < bytes / 4 {
        return Err(Refusal::Room);
    }
    Ok(())
}

// Table, 10, 17, 9, for a list of so many bytes and rooms of so many numbers and bytes.
pub fn check(
    table: &[u64],
    faulty: u64,
    bytes: usize,
    state: usize,
    answers: usize,
) -> Result<(), Refusal>
    ensures { result ≡ run_check (lists table.now) faulty bytes state answers }
{
    table::check(table)?;
    check_of(table.len() / 63, faulty, bytes, state, answers)
}

// The run of a list of calls, four bytes a call, from a fresh state. Of rows: 10, 17, 9, then the run: the first 4n + 6 numbers of the state room, one byte a
// call of the answer room.
pub fn run_of(
    rows: &[u64],
    n: usize,
    faulty: u64,
    list: &[u8],
    state: &mut [u64],
    answers: &mut [u8],
) -> Result<u64, Refusal>
    requires { Rows rows.now n }
    ensures answer { result ≡ row_ran rows.now n faulty list.now (length state.old) (length answers.old) }
    ensures states { state.new ≡ row_state_into result rows.now n faulty list.now state.old }
    ensures bytes { answers.new ≡ row_answers_into result rows.now n faulty list.now answers.old }
{
    check_of(n, faulty, list.len(), state.len(), answers.len())?;
    let size = places::width(n);
    let many = list.len() / 4;
    let passes = passes::run_fresh(
        rows,
        n,
        faulty,
        list,
        &mut state[..size],
        &mut answers[..many],
    );
    Ok(passes)
}

// The run of a list of calls, four bytes a call, from a fresh state: table, 10, 17, 9, then the run.
pub fn run(
    table: &[u64],
    faulty: u64,
    list: &[u8],
    state: &mut [u64],
    answers: &mut [u8],
) -> Result<u64, Refusal>
    ensures answer { result ≡ ran (lists table.now) faulty list.now (length state.old) (length answers.old) }
    ensures states { state.new ≡ state_into result (lists table.now) faulty list.now state.old }
    ensures bytes { answers.new ≡ answers_into result (lists table.now) faulty list.now answers.old }
{
    table::check(table)?;
    run_of(table, table.len() / 63, faulty, list, state, answers)
}
