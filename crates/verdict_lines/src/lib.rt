// The seven lines of a verdict, written into a lent room.
#![tactic(auto)]

ghost use Rattle.std.specs.Prelude.{◌≤◌, length};
ghost use Rattle.text.specs.Written.{Writes};
ghost use Rattle.verdict_lines.specs.Verdict.{seven_lines};

// The seven lines of a verdict.
pub fn put_verdict(
    room: &mut [u8],
    faulty: u64,
    sites: u64,
    meet: bool,
    intact: u64,
    quorum: u64,
    rounds: u64,
) -> usize
    requires in_bounds { 300 ≤ length room.old }
    requires sites_bound { sites ≤ 64 }
    ensures { Writes (seven_lines faulty sites meet intact quorum rounds) room.old 0 result room.new }
{
    let at = lines::line_decimal(room, 0, b"sites ", sites);
    let at = lines::line_mask(room, at, b"faulty ", faulty);
    let at = lines::line_answer(room, at, b"meet ", meet);
    let at = lines::line_mask(room, at, b"intact ", intact);
    let befouled = masks::minus(masks::all_below(sites), intact);
    let at = lines::line_mask(room, at, b"befouled ", befouled);
    let at = lines::line_mask(room, at, b"quorum ", quorum);
    lines::line_decimal(room, at, b"rounds ", rounds)
}
