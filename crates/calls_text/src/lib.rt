// Calls as text, read: a text of any length, line by line, into a lent room for 4,096 calls.
#![tactic(auto)]

ghost use Rattle.std.specs.Prelude.{◌≡◌, ◌+◌, ◌%◌, ◌≤◌, length, take, drop};
ghost use Rattle.calls_text.specs.Inner.{hear_piece, line_at, took_of, took_into};
ghost use Rattle.calls_text.specs.Pieces.{stops, upto, says};
ghost use Rattle.calls_text.specs.Reading.{with_line, read_text, text_into};

use call_words::{Heard, Line, Wanted};

// The first line of a text that is wrong, counted from 1, and what was wanted there.
#[derive(Clone, Copy)]
pub struct Fault {
    pub line: u64,
    pub wanted: Wanted,
}

// Whether the byte ends a line (10), begins a comment (35) or parts words (32).
#[tactic(auto, unfolding(crate::specs::Pieces::stops))]
fn stops(kind: u8, b: u8) -> bool
    ensures { result ≡ stops kind b }
{
    b == kind || (kind == b' ' && matches!(b, b'\t' | b',' | b';'))
}

// The place of the first byte from `at` on that stops, or the end.
fn upto(text: &[u8], at: usize, kind: u8) -> usize
    requires { at ≤ length text.now }
    ensures { result ≡ at + upto (stops kind) (drop at text.now) }
{
    for i in at..text.len() {
        if stops(kind, text[i]) {
            return i;
        }
    }
    text.len()
}

// A piece of a line is heard if it is a word.
fn hear_piece(s: Heard, piece: &[u8]) -> Heard
    ensures { result ≡ hear_piece s piece.now }
{
    if piece.is_empty() {
        s
    } else {
        call_words::hear(s, call_words::meant(piece))
    }
}

// What a line says, piece by piece up to a comment.
fn says(line: &[u8]) -> Line
    ensures { result ≡ says line.now }
{
    let end = upto(line, 0, b'#');
    let line = &line[..end];
    let mut s = Heard::Nothing;
    let mut at: usize = 0;
    while at < end {
        let stop = upto(line, at, b' ');
        s = hear_piece(s, &line[at..stop]);
        at = stop + 1;
    }
    call_words::closed(s)
}

// What the line from `at` to `end` says. The last line of a text has no end; of any other a CR at its end is cut off.
fn line_at(text: &[u8], at: usize, end: usize) -> Line
    requires at_le_end { at ≤ end }
    requires end_in_bounds { end ≤ length text.now }
    ensures { result ≡ line_at text.now at end }
{
    if at == end {
        return Line::Empty;
    }
    if end < text.len() && text[end - 1] == b'\r' {
        says(&text[at..end - 1])
    } else {
        says(&text[at..end])
    }
}

// Puts a call behind n bytes of calls, and answers how many bytes there are then.
fn put_call(room: &mut [u8], n: usize, a: u8, b: u8, c: u8, d: u8) -> Result<usize, Wanted>
    requires room_len { length room.old ≡ 16384 }
    requires n_bound { n ≤ 16384 }
    requires n_value { n % 4 ≡ 0 }
    ensures answer { result ≡ took_of (with_line (take n room.old) (Line.Call a b c d)) }
    ensures memory { room.new ≡ took_into (with_line (take n room.old) (Line.Call a b c d)) room.old }
{
    if n < 16384 {
        room[n..n + 4].copy_from_slice(&[a, b, c, d]);
        return Ok(n + 4);
    }
    Err(Wanted::Fewer)
}

// Takes a line in.
fn take(line: Line, room: &mut [u8], n: usize) -> Result<usize, Wanted>
    requires room_len { length room.old ≡ 16384 }
    requires n_bound { n ≤ 16384 }
    requires n_value { n % 4 ≡ 0 }
    ensures answer { result ≡ took_of (with_line (take n room.old) line) }
    ensures memory { room.new ≡ took_into (with_line (take n room.old) line) room.old }
{
    match line {
        Line::Empty => Ok(n),
        Line::Call(a, b, c, d) => put_call(room, n, a, b, c, d),
        Line::Fault(wanted) => Err(wanted),
    }
}

// Reads a text into the room: how many bytes of it are the list, or the first line that is wrong.
pub fn make(text: &[u8], room: &mut [u8; 16384]) -> Result<usize, Fault>
    ensures answer { result ≡ (read_text text.now).answer }
    ensures memory { room.new ≡ text_into text.now room.old }
{
    let mut at: usize = 0;
    let mut number: u64 = 1;
    let mut n: usize = 0;
    while at < text.len() {
        let end = upto(text, at, b'\n');
        let line = line_at(text, at, end);
        match take(line, room, n) {
            Ok(m) => {
                n = m;
            }
            Err(wanted) => {
                return Err(Fault {
                    line: number,
                    wanted,
                });
            }
        }
        at = end + 1;
        number += 1;
    }
    Ok(n)
}
