// Each site's line for the register, with what the entry is worth.
#![tactic(auto)]

ghost use Rattle.std.specs.Prelude.{cond, ◌++◌, ◌≡◌, ◌+◌, ◌*◌, ◌≤◌, ◌<◌, eqb, length};
ghost use Rattle.ground.specs.Pieces.{cat};
ghost use Rattle.lines.specs.Lines.{newline};
ghost use Rattle.mark.specs.Mark.{mark};
ghost use Rattle.text.specs.Text.{ascii};
ghost use Rattle.text.specs.Written.{Writes};
ghost use Rattle.register.specs.Register.{worth_of, site_line};

// Whether a site is intact is known for so many sites at most.
const MOST: u64 = 12;

// ` drill` or ` live`, by the mark.
fn put_mark(room: &mut [u8], at: usize, v: u64, drill: u64, live: u64) -> usize
    requires { at + 6 ≤ length room.old }
    ensures { Writes (cond (eqb (mark v drill live) 1) (ascii " drill") (ascii " live")) room.old at result room.new }
{
    if mark::mark(v, drill, live) == 1 {
        return text::put(room, at, b" drill");
    }
    text::put(room, at, b" live")
}

// What the entry of a site is worth, and the end of the line.
fn put_worth(room: &mut [u8], at: usize, n: u64, faulty: u64, whole: u64, v: u64) -> usize
    requires at_in_bounds { at + 10 ≤ length room.old }
    requires v_bound { v < 64 }
    ensures { Writes (worth_of n faulty whole v ++ newline) room.old at result room.new }
{
    if masks::has(faulty, v) {
        return text::put(room, at, b" faulty\n");
    }
    if MOST < n {
        return text::put(room, at, b" unknown\n");
    }
    if masks::has(whole, v) {
        return text::put(room, at, b" intact\n");
    }
    text::put(room, at, b" befouled\n")
}

// The line of a site.
fn put_site(
    room: &mut [u8],
    at: usize,
    n: u64,
    faulty: u64,
    whole: u64,
    drill: u64,
    live: u64,
    v: u64,
) -> usize
    requires at_in_bounds { at + 41 ≤ length room.old }
    requires v_bound { v < 64 }
    ensures { Writes (site_line n faulty whole drill live v) room.old at result room.new }
{
    let at = text::put(room, at, b"site ");
    let at = text::put_decimal(room, at, v);
    let at = put_mark(room, at, v, drill, live);
    put_worth(room, at, n, faulty, whole, v)
}

// The line of each site, of which those of `whole` are intact.
pub fn put_sites(
    room: &mut [u8],
    at: usize,
    n: u64,
    faulty: u64,
    whole: u64,
    drill: u64,
    live: u64,
) -> usize
    requires n_in_bounds { at + 41 * n ≤ length room.old }
    requires n_bound { n ≤ 64 }
    ensures { Writes (cat (site_line n faulty whole drill live) n) room.old at result room.new }
{
    let mut end = at;
    for v in 0..n {
        end = put_site(room, end, n, faulty, whole, drill, live, v);
    }
    end
}
