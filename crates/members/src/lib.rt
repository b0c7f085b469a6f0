// A set as its sites, written by their numbers.
#![tactic(auto)]

ghost use Rattle.std.specs.Prelude.{◌+◌, ◌≤◌, ◌<◌, length};
ghost use Rattle.lines.specs.Lines.{line};
ghost use Rattle.text.specs.Written.{Writes};
ghost use Rattle.members.specs.Members.{site_shown, members};

// Site u with a blank before it, if it is in the set.
fn put_member(room: &mut [u8], at: usize, set: u64, u: u64) -> usize
    requires u_bound { u < 64 }
    requires at_in_bounds { at + 21 ≤ length room.old }
    ensures { Writes (site_shown set u) room.old at result room.new }
{
    if masks::has(set, u) {
        let at = text::put(room, at, b" ");
        return text::put_decimal(room, at, u);
    }
    at
}

// The sites of a set, ascending.
pub fn put_members(room: &mut [u8], at: usize, set: u64) -> usize
    requires { at + 210 ≤ length room.old }
    ensures { Writes (members set) room.old at result room.new }
{
    let mut end = at;
    for u in 0..64 {
        end = put_member(room, end, set, u);
    }
    end
}

// A word and the sites of a set: the word alone for nobody.
pub fn line_members(room: &mut [u8], at: usize, word: &[u8], set: u64) -> usize
    requires { at + length word.now + 211 ≤ length room.old }
    ensures { Writes (line word.now (members set)) room.old at result room.new }
{
    let at = text::put(room, at, word);
    let at = put_members(room, at, set);
    text::put(room, at, b"\n")
}
