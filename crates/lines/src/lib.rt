// The lines that the programs print, each written from a place on: the answer is the place behind it.
#![tactic(auto)]

ghost use Rattle.std.specs.Prelude.{cond, ◌+◌, ◌≤◌, length};
ghost use Rattle.text.specs.Text.{ascii, decimal, mask};
ghost use Rattle.text.specs.Written.{Writes};
ghost use Rattle.lines.specs.Lines.{line, sides};

// A word and a text.
pub fn line_text(room: &mut [u8], at: usize, word: &[u8], said: &[u8]) -> usize
    requires { at + length word.now + length said.now + 1 ≤ length room.old }
    ensures { Writes (line word.now said.now) room.old at result room.new }
{
    let at = text::put(room, at, word);
    let at = text::put(room, at, said);
    text::put(room, at, b"\n")
}

// A word and a number.
pub fn line_decimal(room: &mut [u8], at: usize, word: &[u8], x: u64) -> usize
    requires { at + length word.now + 21 ≤ length room.old }
    ensures { Writes (line word.now (decimal x)) room.old at result room.new }
{
    let at = text::put(room, at, word);
    let at = text::put_decimal(room, at, x);
    text::put(room, at, b"\n")
}

// A word and `yes` or `no`.
pub fn line_answer(room: &mut [u8], at: usize, word: &[u8], yes: bool) -> usize
    requires { at + length word.now + 4 ≤ length room.old }
    ensures { Writes (line word.now (cond yes (ascii "yes") (ascii "no"))) room.old at result room.new }
{
    if yes {
        return line_text(room, at, word, b"yes");
    }
    line_text(room, at, word, b"no")
}

// A word and a mask.
pub fn line_mask(room: &mut [u8], at: usize, word: &[u8], m: u64) -> usize
    requires { at + length word.now + 17 ≤ length room.old }
    ensures { Writes (line word.now (mask m)) room.old at result room.new }
{
    let at = text::put(room, at, word);
    let at = text::put_mask(room, at, m);
    text::put(room, at, b"\n")
}

// A word and two masks.
pub fn line_sides(room: &mut [u8], at: usize, word: &[u8], drill: u64, live: u64) -> usize
    requires { at + length word.now + 34 ≤ length room.old }
    ensures { Writes (sides word.now drill live) room.old at result room.new }
{
    let at = text::put(room, at, word);
    let at = text::put_mask(room, at, drill);
    let at = text::put(room, at, b" ");
    let at = text::put_mask(room, at, live);
    text::put(room, at, b"\n")
}
