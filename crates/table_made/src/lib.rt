// A table from a person's text.
#![tactic(auto)]

ghost use Rattle.std.specs.Prelude.{◌≡◌, length};
ghost use Rattle.table_made.specs.Made.{is_whole, answer_of, made, leaves};

use table_grammar::{Phase, Spot, Why};

// Why there is no table: the text is none, with the line and what was expected there; or the room lent for the table is too short.
#[derive(Clone, Copy)]
pub enum Fault {
    Line(u64, Why),
    Room,
}

// All lines of sites were there.
fn is_whole(p: Phase, more: bool) -> bool
    ensures { result ≡ is_whole p more }
{
    matches!(p, Phase::Owner) && !more
}

// A table of so many sites, or the fault and its line.
#[tactic(auto, unfolding(crate::specs::Made::answer_of))]
fn answer_of(s: Spot) -> Result<u64, Fault>
    ensures { result ≡ answer_of s }
{
    let more = s.v < s.n;
    if is_whole(s.phase, more) {
        Ok(s.n)
    } else {
        Err(Fault::Line(s.line, table_grammar::expected(s.phase, more)))
    }
}

// How many sites the table of a text has, and the table in the lent room; a fault leaves the room alone.
pub fn make(text: &[u8], room: &mut [u64]) -> Result<u64, Fault>
    ensures answer { result ≡ made text.now (length room.old) }
    ensures memory { room.new ≡ leaves text.now room.old }
{
    let mut t = [0u64; 4032];
    let s = table_reading::walk(text, &mut t);
    let n = answer_of(s)?;
    let k = 63 * n as usize;
    if room.len() < k {
        return Err(Fault::Room);
    }
    room[..k].copy_from_slice(&t[..k]);
    Ok(n)
}
