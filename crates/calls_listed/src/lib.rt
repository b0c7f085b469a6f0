// A list of calls as text, in a lent room: a line a call, or the refusal.
#![tactic(auto)]

ghost use Rattle.std.specs.Prelude.{◌≡◌, ◌+◌, ◌*◌, ◌/◌, ◌≤◌, length};
ghost use Rattle.calls_listed.specs.Listed.{list_lines, list_text};
ghost use Rattle.io.specs.Counts.{IsPrefixLen};
ghost use Rattle.text.specs.Written.{Writes};

use refusals::Refusal;

// Room for the lines of 4,096 calls.
pub const LISTED: usize = 344064;

// The line of each call.
fn put_lines(list: &[u8], room: &mut [u8]) -> usize
    requires { 84 * (length list.now / 4) ≤ length room.old }
    ensures { Writes (list_lines list.now) room.old 0 result room.new }
{
    let n = list.len() / 4;
    let mut end: usize = 0;
    for i in 0..n {
        let k = 4 * i;
        end = call_lines::put_call(room, end, list[k], list[k + 1], list[k + 2], list[k + 3]);
    }
    end
}

// A list as text, or the refusal and what it means. Answers the length of the text.
pub fn list(list: &[u8], room: &mut [u8; LISTED]) -> usize
    ensures text { Writes (list_text list.now) room.old 0 result room.new }
    ensures counts { IsPrefixLen result room.new }
{
    if list.len() % 4 != 0 || 16384 < list.len() {
        return refusal_lines::put_explained(room, 0, Refusal::List);
    }
    put_lines(list, room)
}
