// The public calls of the voting: the soundness of a state, and the step. Of each the table is checked first; the rest is asked of its rows.
#![tactic(auto)]

ghost use Rattle.std.specs.Prelude.{◌≡◌};
ghost use Rattle.sets.specs.Groups.{lists};
ghost use Rattle.sets.specs.Inner.Rows.{Rows};
ghost use Rattle.voting.specs.Inner.{row_sound, row_step, row_step_into};
ghost use Rattle.voting.specs.Step.{sound_check, step_check, step_into};
ghost use Rattle.votes.specs.Call.{call};

use refusals::Refusal;

// The soundness of a state. Of rows: 10, 18.
pub fn sound_of(rows: &[u64], n: usize, faulty: u64, state: &[u64]) -> Result<(), Refusal>
    requires { Rows rows.now n }
    ensures { result ≡ row_sound rows.now n faulty state.now }
{
    sets::check_set(n, faulty)?;
    if soundness::is_unsound(rows, n, faulty, state) {
        return Err(Refusal::Unsound);
    }
    Ok(())
}

// The soundness of a state: table, 10, 18.
pub fn sound(table: &[u64], faulty: u64, state: &[u64]) -> Result<(), Refusal>
    ensures { result ≡ sound_check (lists table.now) faulty state.now }
{
    table::check(table)?;
    sound_of(table, table.len() / 63, faulty, state)
}

// One call on a state. Of rows: 10, 18, 11, 13, 12, 14, 15.
pub fn step_of(
    rows: &[u64],
    n: usize,
    faulty: u64,
    state: &mut [u64],
    kind: u8,
    from: u8,
    to: u8,
    side: u8,
) -> Result<(), Refusal>
    requires { Rows rows.now n }
    ensures answer { result ≡ row_step rows.now n faulty (call kind from to side) state.old }
    ensures memory { state.new ≡ row_step_into rows.now n faulty (call kind from to side) state.old }
{
    sound_of(rows, n, faulty, state)?;
    taking::work(
        rows,
        n,
        faulty,
        state,
        usize::from(kind),
        usize::from(from),
        usize::from(to),
        usize::from(side),
    )
    .answer
}

// One call on a state: table, 10, 18, 11, 13, 12, 14, 15.
pub fn step(
    table: &[u64],
    faulty: u64,
    state: &mut [u64],
    kind: u8,
    from: u8,
    to: u8,
    side: u8,
) -> Result<(), Refusal>
    ensures answer { result ≡ step_check (lists table.now) faulty (call kind from to side) state.old }
    ensures memory { state.new ≡ step_into (lists table.now) faulty (call kind from to side) state.old }
{
    table::check(table)?;
    step_of(table, table.len() / 63, faulty, state, kind, from, to, side)
}
