// What the desk prints of two lists of calls: whether they are the same, or the calls that only one of them has; and the sites proposed both sides.
#![tactic(auto)]

ghost use Rattle.std.specs.Prelude.{◌≤◌, length};
ghost use Rattle.io.specs.Counts.{IsPrefixLen};
ghost use Rattle.same_text.specs.SameText.{answer_lines, refused_list, same_text};
ghost use Rattle.text.specs.Written.{Writes};

use refusals::Refusal;

// Room for the lines of two times 4,096 calls and of 256 sites.
pub const SAME: usize = 752640;

// Whether the lists are the same, or what only one of them has.
fn put_answer(room: &mut [u8], a: &[u8], b: &[u8]) -> usize
    requires in_bounds { 752640 ≤ length room.old }
    requires a_len_bound { length a.now ≤ 16384 }
    requires b_len_bound { length b.now ≤ 16384 }
    ensures { Writes (answer_lines a.now b.now) room.old 0 result room.new }
{
    if same_calls::same_lists(a, b) {
        return text::put(room, 0, b"same\n");
    }
    let at = same_lines::put_lacks(room, 0, b"first ", a, b);
    same_lines::put_lacks(room, at, b"second ", b, a)
}

// The refusal of a list and what it means, behind a line that says which of the two it is.
fn put_refusal(room: &mut [u8], which: &[u8]) -> usize
    requires in_bounds { 752640 ≤ length room.old }
    requires which_len_bound { length which.now ≤ 7 }
    ensures { Writes (refused_list which.now) room.old 0 result room.new }
{
    let at = text::put(room, 0, which);
    refusal_lines::put_explained(room, at, Refusal::List)
}

// The comparison of two lists, or the refusal of the first that is none. Answers the length of the text.
pub fn same(a: &[u8], b: &[u8], room: &mut [u8; SAME]) -> usize
    ensures text { Writes (same_text a.now b.now) room.old 0 result room.new }
    ensures counts { IsPrefixLen result room.new }
{
    if same_calls::misshapen(a) {
        return put_refusal(room, b"first\n");
    }
    if same_calls::misshapen(b) {
        return put_refusal(room, b"second\n");
    }
    let at = put_answer(room, a, b);
    same_lines::put_boths(room, at, a, b)
}
