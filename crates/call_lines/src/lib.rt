// A call as a line: in words, or as four numbers. Each is written from a place on, and the answer is the place behind it.
#![tactic(auto)]

ghost use Rattle.std.specs.Prelude.{true, false, ◌≡◌, ◌+◌, ◌≤◌, length, ◌++◌};
ghost use Rattle.call_lines.specs.CallLine.{worded, side_name, said_call};
ghost use Rattle.lines.specs.Lines.{newline};
ghost use Rattle.text.specs.Text.{ascii, decimal};
ghost use Rattle.text.specs.Written.{Writes};

// Whether the call can be said in words: a kind and a side of 01, and a proposal that names one site.
#[tactic(auto, unfolding(crate::specs::CallLine::worded))]
fn worded(kind: u8, from: u8, to: u8, side: u8) -> bool
    ensures { result ≡ worded kind from to side }
{
    side <= 1 && kind <= 2 && (kind != 0 || from == to)
}

// Two numbers.
fn put_pair(room: &mut [u8], at: usize, from: u8, to: u8) -> usize
    requires { at + 41 ≤ length room.old }
    ensures { Writes (decimal from ++ (ascii " " ++ decimal to)) room.old at result room.new }
{
    let at = text::put_decimal(room, at, u64::from(from));
    let at = text::put(room, at, b" ");
    text::put_decimal(room, at, u64::from(to))
}

// A side behind a blank, and the end of the line.
fn put_side(room: &mut [u8], at: usize, side: u8) -> usize
    requires { at + 7 ≤ length room.old }
    ensures { Writes (ascii " " ++ (side_name side ++ newline)) room.old at result room.new }
{
    if side == 0 {
        return text::put(room, at, b" drill\n");
    }
    text::put(room, at, b" live\n")
}

// Four numbers, and the end of the line.
fn put_numbers(room: &mut [u8], at: usize, kind: u8, from: u8, to: u8, side: u8) -> usize
    requires at_in_bounds { at + 84 ≤ length room.old }
    requires side_value { worded kind from to side ≡ false }
    ensures { Writes (said_call kind from to side) room.old at result room.new }
{
    let at = text::put_decimal(room, at, u64::from(kind));
    let at = text::put(room, at, b" ");
    let at = put_pair(room, at, from, to);
    lines::line_decimal(room, at, b" ", u64::from(side))
}

// A call in words, and the end of the line.
fn put_words(room: &mut [u8], at: usize, kind: u8, from: u8, to: u8, side: u8) -> usize
    requires at_in_bounds { at + 84 ≤ length room.old }
    requires side_value { worded kind from to side ≡ true }
    ensures { Writes (said_call kind from to side) room.old at result room.new }
{
    if kind == 0 {
        let at = text::put(room, at, b"propose ");
        let at = text::put_decimal(room, at, u64::from(from));
        return put_side(room, at, side);
    }
    if kind == 1 {
        let at = text::put(room, at, b"vote ");
        let at = put_pair(room, at, from, to);
        return put_side(room, at, side);
    }
    let at = text::put(room, at, b"accept ");
    let at = put_pair(room, at, from, to);
    put_side(room, at, side)
}

// The line of a call.
pub fn put_call(room: &mut [u8], at: usize, kind: u8, from: u8, to: u8, side: u8) -> usize
    requires { at + 84 ≤ length room.old }
    ensures { Writes (said_call kind from to side) room.old at result room.new }
{
    if worded(kind, from, to, side) {
        return put_words(room, at, kind, from, to, side);
    }
    put_numbers(room, at, kind, from, to, side)
}
