// What the verdict program prints of a table in memory, as bytes in a lent room: the seven lines of a verdict, or the line of a refusal.
#![tactic(auto)]

ghost use Rattle.std.specs.Prelude.{◌≡◌, ◌*◌, ◌≤◌, length};
ghost use Rattle.text.specs.Written.{Writes};
ghost use Rattle.judged_text.specs.Inner.{met};
ghost use Rattle.judged_text.specs.Judged.{judged_text};
ghost use Rattle.sets.specs.Groups.{lists};

use questions::Pair;
use refusals::Refusal;

// Whether every two quorums meet.
pub fn meets(s: Result<Option<Pair>, Refusal>) -> bool
    ensures { result ≡ met s }
{
    match s {
        Ok(None) => true,
        Ok(Some(_)) => false,
        Err(_) => false,
    }
}

// Table, 10, 16, and the verdict, on a table that is read.
pub fn judge(table: &[u64], sites: u64, faulty: u64, room: &mut [u8]) -> usize
    requires in_bounds { 300 ≤ length room.old }
    requires table_len { length table.now ≡ 63 * sites }
    requires sites_bound { sites ≤ 64 }
    ensures { Writes (judged_text faulty (lists table.now)) room.old 0 result room.new }
{
    let standing = verdict_questions::intact(table, faulty);
    match standing {
        Err(r) => refusal_lines::put_refused(room, 0, r),
        Ok(intact) => {
            let others = masks::minus(masks::all_below(sites), faulty);
            let shared = verdict_questions::shared(table);
            let greatest = questions::largest(table, others);
            match greatest {
                Err(r) => refusal_lines::put_refused(room, 0, r),
                Ok(left) => verdict_lines::put_verdict(
                    room,
                    faulty,
                    sites,
                    meets(shared),
                    intact,
                    left.set,
                    left.rounds,
                ),
            }
        }
    }
}
