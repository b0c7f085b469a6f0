// The accept calls between intact sites that a list lacks, as lines in a lent room. Each is written from a place on, and the answer is the place behind it.
#![tactic(auto)]

ghost use Rattle.std.specs.Prelude.{◌++◌, ◌≡◌, ◌+◌, ◌*◌, ◌≤◌, ◌<◌, length};
ghost use Rattle.call_lines.specs.CallLine.{side_name};
ghost use Rattle.lines.specs.Lines.{line};
ghost use Rattle.liveness.specs.Complete.{lacks};
ghost use Rattle.missing_lines.specs.Missing.{missing_line, missing_from, missing_lines, side_lines, unmet};
ghost use Rattle.missing_lines.specs.Inner.{lines_of};
ghost use Rattle.text.specs.Text.{ascii, decimal};
ghost use Rattle.text.specs.Written.{Writes};

// Whether the accept call of the side from site u to site v is missing.
#[tactic(auto, unfolding(liveness::specs::Complete::lacks))]
fn lacks(among: u64, side: u8, list: &[u8], accepters: u64, u: u8, v: u8) -> bool
    requires u_bound { u < 64 }
    requires v_bound { v < 64 }
    ensures { result ≡ lacks among side list.now accepters u v }
{
    u != v
        && masks::has(accepters, u64::from(u))
        && masks::has(among, u64::from(u))
        && masks::has(among, u64::from(v))
        && !same_calls::has_call(list, list.len() / 4, 2, u, v, side)
}

// The name of a side, and a blank.
fn put_name(room: &mut [u8], at: usize, side: u8) -> usize
    requires { at + 6 ≤ length room.old }
    ensures { Writes (side_name side ++ ascii " ") room.old at result room.new }
{
    if side == 0 {
        return text::put(room, at, b"drill ");
    }
    text::put(room, at, b"live ")
}

// The line of a call: side, from, to.
fn put_line(room: &mut [u8], at: usize, side: u8, u: u8, v: u8) -> usize
    requires { at + 48 ≤ length room.old }
    ensures { Writes (line (side_name side ++ ascii " ") (decimal u ++ (ascii " " ++ decimal v))) room.old at result room.new }
{
    let at = put_name(room, at, side);
    let at = text::put_decimal(room, at, u64::from(u));
    lines::line_decimal(room, at, b" ", u64::from(v))
}

// The line of the accept call from site u to site v, if it is missing.
fn put_missing(
    room: &mut [u8],
    at: usize,
    among: u64,
    side: u8,
    list: &[u8],
    accepters: u64,
    u: u8,
    v: u8,
) -> usize
    requires at_in_bounds { at + 48 ≤ length room.old }
    requires u_bound { u < 64 }
    requires v_bound { v < 64 }
    ensures { Writes (missing_line among side list.now accepters u v) room.old at result room.new }
{
    if lacks(among, side, list, accepters, u, v) {
        return put_line(room, at, side, u, v);
    }
    at
}

// The lines of a sender.
fn put_from(
    room: &mut [u8],
    at: usize,
    n: u8,
    among: u64,
    side: u8,
    list: &[u8],
    accepters: u64,
    u: u8,
) -> usize
    requires n_bound { n ≤ 12 }
    requires u_bound { u < 64 }
    requires at_in_bounds { at + 576 ≤ length room.old }
    ensures { Writes (missing_from n among side list.now accepters u) room.old at result room.new }
{
    let mut end = at;
    for v in 0..n {
        end = put_missing(room, end, among, side, list, accepters, u, v);
    }
    end
}

// The lines of all senders.
fn put_all(
    room: &mut [u8],
    at: usize,
    n: u8,
    among: u64,
    side: u8,
    list: &[u8],
    accepters: u64,
) -> usize
    requires n_bound { n ≤ 12 }
    requires at_in_bounds { at + 6912 ≤ length room.old }
    ensures { Writes (missing_lines n among side list.now accepters) room.old at result room.new }
{
    let mut end = at;
    for u in 0..n {
        end = put_from(room, end, n, among, side, list, accepters, u);
    }
    end
}

// The line of a side for which nothing is missing.
fn put_complete(room: &mut [u8], at: usize, side: u8) -> usize
    requires { at + 15 ≤ length room.old }
    ensures { Writes (line (ascii "complete ") (side_name side)) room.old at result room.new }
{
    if side == 0 {
        return text::put(room, at, b"complete drill\n");
    }
    text::put(room, at, b"complete live\n")
}

// The lines of a side: the calls that are missing, or that none is.
pub fn put_side(
    room: &mut [u8],
    at: usize,
    n: u8,
    among: u64,
    side: u8,
    list: &[u8],
    accepters: u64,
) -> usize
    requires n_bound { n ≤ 12 }
    requires at_in_bounds { at + 6912 ≤ length room.old }
    ensures { Writes (side_lines n among side list.now accepters) room.old at result room.new }
{
    let end = put_all(room, at, n, among, side, list, accepters);
    if end != at {
        return end;
    }
    put_complete(room, end, side)
}

// The line `meet no` where the table does not meet.
fn put_unmet(room: &mut [u8], meet: bool) -> usize
    requires { 8 ≤ length room.old }
    ensures { Writes (unmet meet) room.old 0 result room.new }
{
    if meet {
        return 0;
    }
    lines::line_text(room, 0, b"meet ", b"no")
}

// That line, and the lines of both sides, from those that accepted each.
pub fn put_lacking(
    room: &mut [u8],
    n: u8,
    intact: u64,
    meet: bool,
    list: &[u8],
    drill: u64,
    live: u64,
) -> usize
    requires n_bound { n ≤ 12 }
    requires in_bounds { 13832 ≤ length room.old }
    ensures { Writes (lines_of n intact meet list.now drill live) room.old 0 result room.new }
{
    let at = put_unmet(room, meet);
    let at = put_side(room, at, n, intact, 0, list, drill);
    put_side(room, at, n, intact, 1, list, live)
}
