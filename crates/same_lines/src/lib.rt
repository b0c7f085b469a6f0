// The lines that the desk prints of two lists of calls: the calls that only one of them has, and the sites proposed both sides.
#![tactic(auto)]

ghost use Rattle.std.specs.Prelude.{◌+◌, ◌*◌, ◌/◌, ◌≤◌, length};
ghost use Rattle.ground.specs.Pieces.{cat};
ghost use Rattle.same_lines.specs.SameLines.{lack_line, lack_lines, both_line};
ghost use Rattle.text.specs.Written.{Writes};

// The line of call i of the first list, if the second list lacks the call and it is not shown yet.
fn put_lack(room: &mut [u8], at: usize, word: &[u8], a: &[u8], b: &[u8], i: usize) -> usize
    requires at_in_bounds { at + 91 ≤ length room.old }
    requires word_len_bound { length word.now ≤ 7 }
    requires i_in_bounds { 4 * i + 4 ≤ length a.now }
    ensures { Writes (lack_line word.now a.now b.now i) room.old at result room.new }
{
    let k = 4 * i;
    let kind = a[k];
    let from = a[k + 1];
    let to = a[k + 2];
    let side = a[k + 3];
    if same_calls::has_call(b, b.len() / 4, kind, from, to, side) {
        return at;
    }
    if same_calls::has_call(a, i, kind, from, to, side) {
        return at;
    }
    let at = text::put(room, at, word);
    call_lines::put_call(room, at, kind, from, to, side)
}

// The lines of the calls that the second list lacks.
pub fn put_lacks(room: &mut [u8], at: usize, word: &[u8], a: &[u8], b: &[u8]) -> usize
    requires a_in_bounds { at + 91 * (length a.now / 4) ≤ length room.old }
    requires word_len_bound { length word.now ≤ 7 }
    ensures { Writes (lack_lines word.now a.now b.now) room.old at result room.new }
{
    let n = a.len() / 4;
    let mut end = at;
    for i in 0..n {
        end = put_lack(room, end, word, a, b, i);
    }
    end
}

// The line of a site, if both sides are proposed to it.
fn put_both(room: &mut [u8], at: usize, a: &[u8], b: &[u8], v: u8) -> usize
    requires { at + 26 ≤ length room.old }
    ensures { Writes (both_line a.now b.now v) room.old at result room.new }
{
    if !same_calls::proposed(a, b, v, 0) {
        return at;
    }
    if !same_calls::proposed(a, b, v, 1) {
        return at;
    }
    lines::line_decimal(room, at, b"both ", v as u64)
}

// The lines of the sites to which both sides are proposed.
pub fn put_boths(room: &mut [u8], at: usize, a: &[u8], b: &[u8]) -> usize
    requires { at + 6656 ≤ length room.old }
    ensures { Writes (cat (both_line a.now b.now) 256) room.old at result room.new }
{
    let mut end = at;
    for v in 0..=u8::MAX {
        end = put_both(room, end, a, b, v);
    }
    end
}
