// The lines of a refusal, each written from a place on: the answer is the place behind it.
#![tactic(auto)]

ghost use Rattle.std.specs.Prelude.{◌+◌, ◌≤◌, length};
ghost use Rattle.text.specs.Written.{Writes};
ghost use Rattle.refusal_lines.specs.Refused.{refused, explained};

use refusals::Refusal;

// `refused N K`
pub fn put_refused(room: &mut [u8], at: usize, r: Refusal) -> usize
    requires { at + 50 ≤ length room.old }
    ensures { Writes (refused r) room.old at result room.new }
{
    let at = text::put(room, at, b"refused ");
    let at = text::put_decimal(room, at, refusals::number(r));
    let at = text::put(room, at, b" ");
    let at = text::put_decimal(room, at, refusals::place(r));
    text::put(room, at, b"\n")
}

// The refusal, and a second line that says what it means.
pub fn put_explained(room: &mut [u8], at: usize, r: Refusal) -> usize
    requires { at + 251 ≤ length room.old }
    ensures { Writes (explained r) room.old at result room.new }
{
    let at = put_refused(room, at, r);
    let at = leaflet::put_meaning(room, at, r);
    text::put(room, at, b"\n")
}
