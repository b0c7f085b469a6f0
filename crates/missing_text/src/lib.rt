// What `desk missing` prints, as bytes in a lent room: the accept calls between intact sites that a list of calls lacks.
#![tactic(auto)]

ghost use Rattle.std.specs.Prelude.{◌≡◌, ◌*◌, ◌≤◌, length, Ok};
ghost use Rattle.io.specs.Counts.{IsPrefixLen};
ghost use Rattle.missing_text.specs.Inner.{table_text};
ghost use Rattle.missing_text.specs.MissingText.{missing_text};
ghost use Rattle.questions.specs.Answers as Answers;
ghost use Rattle.sets.specs.Groups.{lists};
ghost use Rattle.text.specs.Written.{Writes};

use check_text::ROOM;

// What the list lacks on a table of which a verdict is given: 17, then the lines.
fn missing_run(
    table: &[u64],
    n: usize,
    faulty: u64,
    intact: u64,
    list: &[u8],
    room: &mut [u8],
) -> usize
    requires in_bounds { 196608 ≤ length room.old }
    requires table_len { length table.now ≡ 63 * n }
    requires intact_value { Ok intact ≡ Answers.intact (lists table.now) faulty }
    ensures { Writes (table_text faulty (lists table.now) list.now) room.old 0 result room.new }
{
    let mut state = [0u64; 262];
    let mut answers = [0u8; 4096];
    let ran = run::run(table, faulty, list, &mut state, &mut answers);
    match ran {
        Err(r) => refusal_lines::put_explained(room, 0, r),
        Ok(_) => {
            let meet = judged_text::meets(verdict_questions::shared(table));
            let drill = state[places::accepted(n, 0)];
            let live = state[places::accepted(n, 1)];
            missing_lines::put_lacking(room, n as u8, intact, meet, list, drill, live)
        }
    }
}

// What the list lacks on a table that is read: 10, 16, 17, then the lines.
fn missing_read(table: &[u64], n: usize, faulty: u64, list: &[u8], room: &mut [u8]) -> usize
    requires in_bounds { 196608 ≤ length room.old }
    requires table_len { length table.now ≡ 63 * n }
    ensures { Writes (table_text faulty (lists table.now) list.now) room.old 0 result room.new }
{
    let standing = verdict_questions::intact(table, faulty);
    match standing {
        Err(r) => refusal_lines::put_explained(room, 0, r),
        Ok(intact) => missing_run(table, n, faulty, intact, list, room),
    }
}

// The accept calls between intact sites that a list of calls lacks, or the refusal and what it means. Answers the length of the text.
pub fn missing(faulty: u64, image: &[u8], list: &[u8], room: &mut [u8; ROOM]) -> usize
    ensures text { Writes (missing_text faulty image.now list.now) room.old 0 result room.new }
    ensures counts { IsPrefixLen result room.new }
{
    let mut table = [0u64; 4032];
    let q = image::read(image, &mut table);
    match q {
        Ok(n) => {
            let n = n as usize;
            missing_read(&table[..63 * n], n, faulty, list, room)
        }
        Err(r) => refusal_lines::put_explained(room, 0, r),
    }
}
