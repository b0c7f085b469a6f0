// What is said of a text of calls that was read: how many calls there are, or the line that is wrong and what was expected there.
#![tactic(auto)]

ghost use Rattle.std.specs.Prelude.{◌+◌, ◌≤◌, length};
ghost use Rattle.calls_said.specs.Faults.{wanted_there, fault_line, made_lines};
ghost use Rattle.io.specs.Counts.{IsPrefixLen};
ghost use Rattle.text.specs.Text.{ascii};
ghost use Rattle.text.specs.Written.{Writes};

use call_words::Wanted;
use calls_text::Fault;
use refusals::Refusal;

// What was wanted.
fn put_wanted(room: &mut [u8], at: usize, wanted: Wanted) -> usize
    requires { at + 200 ≤ length room.old }
    ensures { Writes (ascii (wanted_there wanted)) room.old at result room.new }
{
    match wanted {
        Wanted::Kind => text::put(
            room,
            at,
            b"expected propose, vote, accept or a number, 0 to 255",
        ),
        Wanted::Number => text::put(room, at, b"expected a number, 0 to 255"),
        Wanted::Side => text::put(room, at, b"expected drill or live"),
        Wanted::End => text::put(room, at, b"expected the end of the line"),
        Wanted::Fewer => leaflet::put_meaning(room, at, Refusal::List),
    }
}

// `line L: ` and what was wanted there.
pub fn put_fault(room: &mut [u8], at: usize, fault: Fault) -> usize
    requires { at + 250 ≤ length room.old }
    ensures { Writes (fault_line fault) room.old at result room.new }
{
    let at = text::put(room, at, b"line ");
    let at = text::put_decimal(room, at, fault.line);
    let at = text::put(room, at, b": ");
    let at = put_wanted(room, at, fault.wanted);
    text::put(room, at, b"\n")
}

// What is printed: how many calls were made; of a call too many the refusal and its line; of any other fault nothing. Answers the length of the text.
pub fn made(answer: Result<usize, Fault>, room: &mut [u8; 512]) -> usize
    ensures text { Writes (made_lines answer) room.old 0 result room.new }
    ensures counts { IsPrefixLen result room.new }
{
    match answer {
        Ok(n) => lines::line_decimal(room, 0, b"calls ", (n / 4) as u64),
        Err(fault) => put_refused(room, fault),
    }
}

// Of a call too many, the refusal and its line.
fn put_refused(room: &mut [u8], fault: Fault) -> usize
    requires { 512 ≤ length room.old }
    ensures { Writes (made_lines (Err fault)) room.old 0 result room.new }
{
    match fault.wanted {
        Wanted::Fewer => {
            let at = refusal_lines::put_refused(room, 0, Refusal::List);
            put_fault(room, at, fault)
        }
        _ => 0,
    }
}
