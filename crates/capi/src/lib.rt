// Every public call of the library for C and Rust, but for the two of the firmware. The header is include/siren.h.
#![tactic(auto)]

ghost use Rattle.std.specs.Prelude.{◌≡◌, length};
ghost use Rattle.said_votes.specs.Run.{run_says, run_state, run_answers};
ghost use Rattle.image.specs.Read.{read, read_into};
ghost use Rattle.journal.specs.Journal as Journal;
ghost use Rattle.journal.specs.Journal.{listed, list_into};
ghost use Rattle.journal_write.specs.Keep.{keep, keep_into};
ghost use Rattle.journal_next.specs.Next.{next};
ghost use Rattle.image_write.specs.Write.{write, write_into};
ghost use Rattle.questions.specs.Answers.{quorum, largest, blocks, shared, intact};
ghost use Rattle.packing.specs.Pack.{bytes_of};
ghost use Rattle.said.specs.Said.{of_check, of_number};
ghost use Rattle.said_sets.specs.Said.{of_holds, of_greatest, of_sharing};
ghost use Rattle.said_journal.specs.Said.{of_checked, of_taken};
ghost use Rattle.sets.specs.Groups.{lists};
ghost use Rattle.table.specs.Table.{check};
ghost use Rattle.voting.specs.Step.{sound_check, step_check, step_into};
ghost use Rattle.votes.specs.Call.{call};

use packing::Call;

pub mod thresholds;

// The check of a table in memory.
#[unsafe(no_mangle)]
pub extern "C" fn siren_table_check(table: &[u64], out: &mut [u64; 4]) -> u64
    ensures answer { result ≡ (of_check (check table.now)).number }
    ensures told { out.new ≡ (of_check (check table.now)).out }
{
    said::check(table::check(table), out)
}

// An image read into the room: the first 63 n numbers.
#[unsafe(no_mangle)]
pub extern "C" fn siren_image_read(image: &[u8], room: &mut [u64], out: &mut [u64; 4]) -> u64
    ensures answer { result ≡ (of_number (read image.now (length room.old))).number }
    ensures told { out.new ≡ (of_number (read image.now (length room.old))).out }
    ensures memory { room.new ≡ read_into (read image.now (length room.old)) image.now room.old }
{
    said::number(image::read(image, room), out)
}

// A table written into the room as an image: the first 512 n bytes.
#[unsafe(no_mangle)]
pub extern "C" fn siren_image_write(table: &[u64], room: &mut [u8], out: &mut [u64; 4]) -> u64
    ensures answer { result ≡ (of_number (write table.now (length room.old))).number }
    ensures told { out.new ≡ (of_number (write table.now (length room.old))).out }
    ensures memory { room.new ≡ write_into (write table.now (length room.old)) table.now room.old }
{
    said::number(image_write::write(table, room), out)
}

// Is the set a quorum?
#[unsafe(no_mangle)]
pub extern "C" fn siren_quorum(table: &[u64], set: u64, out: &mut [u64; 4]) -> u64
    ensures answer { result ≡ (of_holds (quorum (lists table.now) set)).number }
    ensures told { out.new ≡ (of_holds (quorum (lists table.now) set)).out }
{
    said_sets::holds(questions::quorum(table, set), out)
}

// The largest quorum inside the set, and its rounds.
#[unsafe(no_mangle)]
pub extern "C" fn siren_largest(table: &[u64], set: u64, out: &mut [u64; 4]) -> u64
    ensures answer { result ≡ (of_greatest (largest (lists table.now) set)).number }
    ensures told { out.new ≡ (of_greatest (largest (lists table.now) set)).out }
{
    said_sets::greatest(questions::largest(table, set), out)
}

// Does the set block the site?
#[unsafe(no_mangle)]
pub extern "C" fn siren_blocks(table: &[u64], set: u64, site: u64, out: &mut [u64; 4]) -> u64
    ensures answer { result ≡ (of_holds (blocks (lists table.now) set site)).number }
    ensures told { out.new ≡ (of_holds (blocks (lists table.now) set site)).out }
{
    said_sets::holds(questions::blocks(table, set, site), out)
}

// Do every two quorums have a common site?
#[unsafe(no_mangle)]
pub extern "C" fn siren_shared(table: &[u64], out: &mut [u64; 4]) -> u64
    ensures answer { result ≡ (of_sharing (shared (lists table.now))).number }
    ensures told { out.new ≡ (of_sharing (shared (lists table.now))).out }
{
    said_sets::sharing(verdict_questions::shared(table), out)
}

// Which sites are intact when those of the set are faulty?
#[unsafe(no_mangle)]
pub extern "C" fn siren_intact(table: &[u64], faulty: u64, out: &mut [u64; 4]) -> u64
    ensures answer { result ≡ (of_number (intact (lists table.now) faulty)).number }
    ensures told { out.new ≡ (of_number (intact (lists table.now) faulty)).out }
{
    said::number(verdict_questions::intact(table, faulty), out)
}

// Is the state sound?
#[unsafe(no_mangle)]
pub extern "C" fn siren_sound(table: &[u64], faulty: u64, state: &[u64], out: &mut [u64; 4]) -> u64
    ensures answer { result ≡ (of_check (sound_check (lists table.now) faulty state.now)).number }
    ensures told { out.new ≡ (of_check (sound_check (lists table.now) faulty state.now)).out }
{
    said::check(voting::sound(table, faulty, state), out)
}

// One call on a state.
#[unsafe(no_mangle)]
pub extern "C" fn siren_step(
    table: &[u64],
    faulty: u64,
    state: &mut [u64],
    kind: u8,
    from: u8,
    to: u8,
    side: u8,
    out: &mut [u64; 4],
) -> u64
    ensures answer { result ≡ (of_check (step_check (lists table.now) faulty (call kind from to side) state.old)).number }
    ensures told { out.new ≡ (of_check (step_check (lists table.now) faulty (call kind from to side) state.old)).out }
    ensures memory { state.new ≡ step_into (lists table.now) faulty (call kind from to side) state.old }
{
    said::check(
        voting::step(table, faulty, state, kind, from, to, side),
        out,
    )
}

// The run of a list of calls, four bytes a call, from a fresh state.
#[unsafe(no_mangle)]
pub extern "C" fn siren_run(
    table: &[u64],
    faulty: u64,
    calls: &[u8],
    state: &mut [u64],
    answers: &mut [u8],
    out: &mut [u64; 4],
) -> u64
    ensures answer { result ≡ (run_says (lists table.now) faulty calls.now state.old answers.old).number }
    ensures told { out.new ≡ (run_says (lists table.now) faulty calls.now state.old answers.old).out }
    ensures states { state.new ≡ run_state (lists table.now) faulty calls.now state.old answers.old }
    ensures bytes { answers.new ≡ run_answers (lists table.now) faulty calls.now state.old answers.old }
{
    said::number(run::run(table, faulty, calls, state, answers), out)
}

// The same run of a list of call records.
#[unsafe(no_mangle)]
pub extern "C" fn siren_run_records(
    table: &[u64],
    faulty: u64,
    calls: &[Call],
    state: &mut [u64],
    answers: &mut [u8],
    out: &mut [u64; 4],
) -> u64
    ensures answer { result ≡ (run_says (lists table.now) faulty (bytes_of calls.now) state.old answers.old).number }
    ensures told { out.new ≡ (run_says (lists table.now) faulty (bytes_of calls.now) state.old answers.old).out }
    ensures states { state.new ≡ run_state (lists table.now) faulty (bytes_of calls.now) state.old answers.old }
    ensures bytes { answers.new ≡ run_answers (lists table.now) faulty (bytes_of calls.now) state.old answers.old }
{
    said::number(
        records::run_records(table, faulty, calls, state, answers),
        out,
    )
}

// The check of a journal.
#[unsafe(no_mangle)]
pub extern "C" fn siren_journal_check(journal: &[u8], out: &mut [u64; 4]) -> u64
    ensures answer { result ≡ (of_checked (Journal.check journal.now)).number }
    ensures told { out.new ≡ (of_checked (Journal.check journal.now)).out }
{
    said_journal::checked(journal::check(journal), out)
}

// A list of calls written into the room as a journal: its first blocks.
#[unsafe(no_mangle)]
pub extern "C" fn siren_journal_write(calls: &[u8], room: &mut [u8], out: &mut [u64; 4]) -> u64
    ensures answer { result ≡ (of_number (keep calls.now (length room.old))).number }
    ensures told { out.new ≡ (of_number (keep calls.now (length room.old))).out }
    ensures memory { room.new ≡ keep_into (keep calls.now (length room.old)) calls.now room.old }
{
    said::number(journal_write::write(calls, room), out)
}

// A journal's list of calls read into the room: its first bytes.
#[unsafe(no_mangle)]
pub extern "C" fn siren_journal_list(journal: &[u8], room: &mut [u8], out: &mut [u64; 4]) -> u64
    ensures answer { result ≡ (of_number (listed journal.now (length room.old))).number }
    ensures told { out.new ≡ (of_number (listed journal.now (length room.old))).out }
    ensures memory { room.new ≡ list_into (listed journal.now (length room.old)) journal.now room.old }
{
    said::number(journal::list(journal, room), out)
}

// The call at a place of a journal, counted in calls from 0. The journal is checked whole each time.
#[unsafe(no_mangle)]
pub extern "C" fn siren_journal_next(journal: &[u8], place: u64, out: &mut [u64; 4]) -> u64
    ensures answer { result ≡ (of_taken (Journal.check journal.now) (next journal.now place)).number }
    ensures told { out.new ≡ (of_taken (Journal.check journal.now) (next journal.now place)).out }
{
    said_journal::taken(
        journal::check(journal),
        journal_next::next_at(journal, place as usize),
        out,
    )
}
