// The run of a list of calls given as records: the same run, over a lent slice of call structs.
#![tactic(auto)]

ghost use Rattle.std.specs.Prelude.{◌≡◌, length};
ghost use Rattle.run.specs.Run.{ran, state_into, answers_into};
ghost use Rattle.records.specs.Inner.{RowEnded, TableEnded};
ghost use Rattle.sets.specs.Groups.{lists};
ghost use Rattle.sets.specs.Inner.Rows.{Rows};
ghost use Rattle.packing.specs.Pack.{bytes_of};

use packing::Call;
use refusals::Refusal;

// The run of n calls that stand packed. Of rows: a list of more than 4,096 calls is refused as one of 16,388 bytes is.
pub fn run_packed_of(
    rows: &[u64],
    sites: usize,
    faulty: u64,
    room: &[u8; 16384],
    n: usize,
    state: &mut [u64],
    answers: &mut [u8],
) -> Result<u64, Refusal>
    requires { Rows rows.now sites }
    ensures { RowEnded rows.now sites faulty room.now n state.old answers.old
        result state.new answers.new }
{
    if 4096 < n {
        run::check_of(sites, faulty, 16388, state.len(), answers.len())?;
        return Err(Refusal::List);
    }
    let bytes: &[u8] = room;
    let end = 4 * n;
    run::run_of(rows, sites, faulty, &bytes[..end], state, answers)
}

// The same of a table, which is checked first.
fn run_packed(
    table: &[u64],
    faulty: u64,
    room: &[u8; 16384],
    n: usize,
    state: &mut [u64],
    answers: &mut [u8],
) -> Result<u64, Refusal>
    ensures { TableEnded (lists table.now) faulty room.now n state.old answers.old
        result state.new answers.new }
{
    table::check(table)?;
    run_packed_of(table, table.len() / 63, faulty, room, n, state, answers)
}

// The run of a list of calls: equal in everything to the run of its bytes.
pub fn run_records(
    table: &[u64],
    faulty: u64,
    calls: &[Call],
    state: &mut [u64],
    answers: &mut [u8],
) -> Result<u64, Refusal>
    ensures answer { result ≡ ran (lists table.now) faulty (bytes_of calls.now) (length state.old) (length answers.old) }
    ensures states { state.new ≡ state_into result (lists table.now) faulty (bytes_of calls.now) state.old }
    ensures bytes { answers.new ≡ answers_into result (lists table.now) faulty (bytes_of calls.now) answers.old }
{
    let mut room = [0u8; 16384];
    packing::pack(calls, &mut room);
    run_packed(table, faulty, &room, calls.len(), state, answers)
}
