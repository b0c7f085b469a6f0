// What `desk verdict` prints behind the seven lines of a verdict: its sets by their sites' numbers, and two quorums with no common site where there are such.
#![tactic(auto)]

ghost use Rattle.std.specs.Prelude.{◌≡◌, ◌+◌, ◌*◌, ◌≤◌, ◌++◌, length};
ghost use Rattle.io.specs.Counts.{IsPrefixLen};
ghost use Rattle.sets.specs.Groups.{lists};
ghost use Rattle.text.specs.Written.{Writes};
ghost use Rattle.verdict_sites.specs.Sites.{parted, four_sets, judged_sites, verdict_sites};

use check_text::ROOM;
use questions::Pair;
use refusals::Refusal;

// Two quorums with no common site, if there are such.
fn put_pair(room: &mut [u8], at: usize, pair: Option<Pair>) -> usize
    requires { at + 500 ≤ length room.old }
    ensures { Writes (parted (Ok pair)) room.old at result room.new }
{
    match pair {
        None => at,
        Some(pair) => {
            let at = text::put(room, at, b"parted");
            let at = members::put_members(room, at, pair.first);
            let at = text::put(room, at, b" |");
            let at = members::put_members(room, at, pair.second);
            text::put(room, at, b"\n")
        }
    }
}

// What the question of shared sites answers.
fn put_parted(room: &mut [u8], at: usize, shared: Result<Option<Pair>, Refusal>) -> usize
    requires { at + 500 ≤ length room.old }
    ensures { Writes (parted shared) room.old at result room.new }
{
    match shared {
        Ok(pair) => put_pair(room, at, pair),
        Err(_) => at,
    }
}

// The four sets, and the two quorums.
fn put_sets(
    room: &mut [u8],
    faulty: u64,
    sites: u64,
    intact: u64,
    quorum: u64,
    shared: Result<Option<Pair>, Refusal>,
) -> usize
    requires in_bounds { 1500 ≤ length room.old }
    requires sites_bound { sites ≤ 64 }
    ensures { Writes (four_sets faulty sites intact quorum ++ parted shared) room.old 0 result room.new }
{
    let at = members::line_members(room, 0, b"faulty sites", faulty);
    let at = members::line_members(room, at, b"intact sites", intact);
    let befouled = masks::minus(masks::all_below(sites), intact);
    let at = members::line_members(room, at, b"befouled sites", befouled);
    let at = members::line_members(room, at, b"quorum sites", quorum);
    put_parted(room, at, shared)
}

// The sets of the verdict on a table that is read; nothing where it is refused.
fn spell(table: &[u64], sites: u64, faulty: u64, room: &mut [u8]) -> usize
    requires in_bounds { 1500 ≤ length room.old }
    requires table_len { length table.now ≡ 63 * sites }
    requires sites_bound { sites ≤ 64 }
    ensures { Writes (judged_sites faulty (lists table.now)) room.old 0 result room.new }
{
    let standing = verdict_questions::intact(table, faulty);
    match standing {
        Err(_) => 0,
        Ok(intact) => {
            let others = masks::minus(masks::all_below(sites), faulty);
            let shared = verdict_questions::shared(table);
            let greatest = questions::largest(table, others);
            match greatest {
                Err(_) => 0,
                Ok(left) => { put_sets(room, faulty, sites, intact, left.set, shared) }
            }
        }
    }
}

// The sets of the verdict on an image; nothing where it is refused.
pub fn verdict_sites(faulty: u64, image: &[u8], room: &mut [u8; ROOM]) -> usize
    ensures text { Writes (verdict_sites faulty image.now) room.old 0 result room.new }
    ensures counts { IsPrefixLen result room.new }
{
    let mut table = [0u64; 4032];
    let q = image::read(image, &mut table);
    match q {
        Ok(n) => spell(&table[..63 * (n as usize)], n, faulty, room),
        Err(_) => 0,
    }
}
