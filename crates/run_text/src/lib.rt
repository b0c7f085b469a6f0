// What `desk run` prints, as bytes in a lent room: the run of a list of calls on an image.
#![tactic(auto)]

ghost use Rattle.std.specs.Prelude.{◌≡◌, ◌*◌, ◌≤◌, length};
ghost use Rattle.io.specs.Counts.{IsPrefixLen};
ghost use Rattle.text.specs.Written.{Writes};
ghost use Rattle.questions.specs.Answers.{intact};
ghost use Rattle.run_text.specs.Inner.{whole_of};
ghost use Rattle.run_text.specs.Run.{ran_text, run_text};
ghost use Rattle.sets.specs.Groups.{lists};

// Room for the longest text, that of 64 sites and 4,096 calls.
pub const ROOM: usize = 589824;

// The sites that are intact, or nobody where that is not known.
fn whole(table: &[u64], faulty: u64) -> u64
    ensures { result ≡ whole_of (intact (lists table.now) faulty) }
{
    let standing = verdict_questions::intact(table, faulty);
    match standing {
        Ok(set) => set,
        Err(_) => 0,
    }
}

// The run of a list on a table that is read.
fn run_read(table: &[u64], n: usize, faulty: u64, list: &[u8], room: &mut [u8]) -> usize
    requires in_bounds { 589824 ≤ length room.old }
    requires table_len { length table.now ≡ 63 * n }
    requires n_bound { n ≤ 64 }
    ensures { Writes (ran_text faulty (lists table.now) list.now) room.old 0 result room.new }
{
    let mut state = [0u64; 262];
    let mut answers = [0u8; 4096];
    let ran = run::run(table, faulty, list, &mut state, &mut answers);
    match ran {
        Err(r) => refusal_lines::put_explained(room, 0, r),
        Ok(passes) => {
            let whole = whole(table, faulty);
            let end = places::width(n);
            outcome::put_run(
                room,
                faulty,
                n,
                whole,
                passes,
                &state[..end],
                list,
                &answers[..list.len() / 4],
            )
        }
    }
}

// The run of a list of calls on an image: its lines, or the refusal and what it means.
pub fn run(faulty: u64, image: &[u8], list: &[u8], room: &mut [u8; ROOM]) -> usize
    ensures text { Writes (run_text faulty image.now list.now) room.old 0 result room.new }
    ensures counts { IsPrefixLen result room.new }
{
    let mut table = [0u64; 4032];
    let q = image::read(image, &mut table);
    match q {
        Ok(n) => {
            let n = n as usize;
            run_read(&table[..63 * n], n, faulty, list, room)
        }
        Err(r) => refusal_lines::put_explained(room, 0, r),
    }
}
