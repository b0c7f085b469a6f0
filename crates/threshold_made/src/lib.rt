// The image of a table of thresholds from a person's text.
#![tactic(auto)]

ghost use Rattle.std.specs.Prelude.{◌++◌, ◌≡◌, ◌*◌, ◌≤◌, length, drop};
ghost use Rattle.threshold_made.specs.Made.{threshold_is_whole, threshold_answer_of, image_to, threshold_made, threshold_leaves};

use threshold_grammar::{Phase, Spot, Why};

// Why there is no image: the text is none, with the line and what was expected there; or the room lent for the image is too short.
#[derive(Clone, Copy)]
pub enum Fault {
    Line(u64, Why),
    Room,
}

// All lines of sites were there.
fn is_whole(p: Phase, more: bool) -> bool
    ensures { result ≡ threshold_is_whole p more }
{
    matches!(p, Phase::Owner) && !more
}

// A table of so many sites, or the fault and its line.
#[tactic(auto, unfolding(crate::specs::Made::threshold_answer_of))]
fn answer_of(s: Spot) -> Result<u64, Fault>
    ensures { result ≡ threshold_answer_of s }
{
    let more = s.v < s.n;
    if is_whole(s.phase, more) {
        Ok(s.n)
    } else {
        Err(Fault::Line(
            s.line,
            threshold_grammar::expected(s.phase, more, 1 < s.depth),
        ))
    }
}

// The image of n blocks in the first bytes of the room.
fn store_all(t: &[u64], n: u64, room: &mut [u8])
    requires t_len { length t.now ≡ 9472 }
    requires n_bound { n ≤ 64 }
    requires n_in_bounds { 512 * n ≤ length room.old }
    ensures { room.new ≡ image_to n t.now n ++ drop (512 * n) room.old }
{
    for v in 0..n as usize {
        threshold_write::store_sets(t, n, v, &mut room[512 * v..512 * v + 512]);
    }
}

// How many sites the table of a text has, and its image in the lent room; a fault leaves the room alone.
pub fn make(text: &[u8], room: &mut [u8]) -> Result<u64, Fault>
    ensures answer { result ≡ threshold_made text.now (length room.old) }
    ensures memory { room.new ≡ threshold_leaves text.now room.old }
{
    let mut t = [0u64; 9472];
    let s = threshold_reading::walk(text, &mut t);
    let n = answer_of(s)?;
    if room.len() < 512 * n as usize {
        return Err(Fault::Room);
    }
    store_all(&t, n, room);
    Ok(n)
}
