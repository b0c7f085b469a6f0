// What was expected in a text of a table, as bytes in a lent room.
#![tactic(auto)]

ghost use Rattle.std.specs.Prelude.{◌+◌, ◌≤◌, length};
ghost use Rattle.text.specs.Text.{ascii};
ghost use Rattle.text.specs.Written.{Writes};
ghost use Rattle.table_wanted.specs.Wanted.{wanted};

use table_grammar::Why;

// What was expected, or what the refusal means. Answers where its text ends.
pub fn put_wanted(room: &mut [u8], at: usize, why: Why) -> usize
    requires { at + 200 ≤ length room.old }
    ensures { Writes (ascii (wanted why)) room.old at result room.new }
{
    match why {
        Why::Sites => text::put(room, at, b"the word sites was expected"),
        Why::Count => text::put(room, at, b"the number of sites was expected, 1 to 64"),
        Why::LineEnd => text::put(room, at, b"the end of the line was expected"),
        Why::Owner => text::put(room, at, b"the number of the next site was expected"),
        Why::Nothing => text::put(room, at, b"nothing more was expected"),
        Why::Colon => text::put(room, at, b"a colon was expected"),
        Why::Member => text::put(room, at, b"the number of a site was expected"),
        Why::Further => text::put(
            room,
            at,
            b"the number of a site, a bar or the end of the line was expected",
        ),
        Why::Other => text::put(
            room,
            at,
            b"another site was expected: this one stands in the group already",
        ),
        Why::Rule(r) => leaflet::put_meaning(room, at, r),
    }
}
