// What `desk make` says of a text, as bytes in a lent room, and whether it is an answer. What writes answers the length of what it wrote.
#![tactic(auto)]

ghost use Rattle.std.specs.Prelude.{◌≡◌, ◌≤◌, length};
ghost use Rattle.io.specs.Counts.{IsPrefixLen};
ghost use Rattle.threshold_made.specs.Made.{threshold_made};
ghost use Rattle.text.specs.Written.{Writes};
ghost use Rattle.threshold_said.specs.MakeText.{threshold_opening, threshold_fault_lines, threshold_is_rule, threshold_is_answer, threshold_make_text};

use threshold_grammar::Why;
use threshold_made::Fault;

// Room for what is said of a text.
pub const ROOM: usize = 512;

// A refusal has its line before.
#[tactic(auto, using(crate::proofs::Ways::nothing))]
fn put_opening(room: &mut [u8], why: Why) -> usize
    requires { 50 ≤ length room.old }
    ensures { Writes (threshold_opening why) room.old 0 result room.new }
{
    match why {
        Why::Rule(r) => refusal_lines::put_refused(room, 0, r),
        _ => 0,
    }
}

// `line L: ` and what was expected there, or the refusal.
fn put_fault(room: &mut [u8], line: u64, why: Why) -> usize
    requires { 512 ≤ length room.old }
    ensures { Writes (threshold_fault_lines line why) room.old 0 result room.new }
{
    let at = put_opening(room, why);
    let at = text::put(room, at, b"line ");
    let at = text::put_decimal(room, at, line);
    let at = text::put(room, at, b": ");
    let at = threshold_wanted::put_wanted(room, at, why);
    text::put(room, at, b"\n")
}

// What is said of a text, by the answer for it.
pub fn make(text: &[u8], answer: Result<u64, Fault>, room: &mut [u8; ROOM]) -> usize
    requires { answer ≡ threshold_made text.now 32768 }
    ensures text { Writes (threshold_make_text text.now) room.old 0 result room.new }
    ensures counts { IsPrefixLen result room.new }
{
    match answer {
        Ok(n) => lines::line_decimal(room, 0, b"sound ", n),
        Err(Fault::Line(line, why)) => put_fault(room, line, why),
        Err(Fault::Room) => 0,
    }
}

// Whether it is a rule of tables that the text breaks.
fn is_rule(why: Why) -> bool
    ensures { result ≡ threshold_is_rule why }
{
    matches!(why, Why::Rule(_))
}

// Whether what is said of a text is an answer, or that it is none.
pub fn is_answer(answer: Result<u64, Fault>) -> bool
    ensures { result ≡ threshold_is_answer answer }
{
    match answer {
        Ok(_) => true,
        Err(Fault::Line(_, why)) => is_rule(why),
        Err(Fault::Room) => false,
    }
}
