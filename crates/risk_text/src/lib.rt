// What `desk risk` prints, as bytes in a lent room: what is at stake when sites of the table on an image break.
#![tactic(auto)]

ghost use Rattle.std.specs.Prelude.{◌+◌, ◌*◌, ◌≤◌, ◌<◌, length};
ghost use Rattle.ground.specs.Pieces.{cat};
ghost use Rattle.io.specs.Counts.{IsPrefixLen};
ghost use Rattle.masks.specs.Mask.{size};
ghost use Rattle.risk_text.specs.RiskText.{risk_line, risk_lines, risk_text};
ghost use Rattle.risk_text.specs.Inner.{risk_read, first_lines};
ghost use Rattle.sets.specs.Groups.{lists};
ghost use Rattle.sets.specs.Inner.Rows.{Rows, rules_of};
ghost use Rattle.text.specs.Written.{Writes};

use check_text::ROOM;
use refusals::Refusal;

// The risk is told for so many sites at most.
const MOST: usize = 12;

// `site V K`
fn put_site(room: &mut [u8], at: usize, table: &[u64], n: usize, v: u64) -> usize
    requires at_in_bounds { at + 47 ≤ length room.old }
    requires rows { Rows table.now n }
    requires n_bound { n ≤ 12 }
    requires v_lt_n { v < n }
    ensures { Writes (risk_line (rules_of table.now) n v) room.old at result room.new }
{
    let others = risk_search::taken_along(table, n, v);
    let at = text::put(room, at, b"site ");
    let at = text::put_decimal(room, at, v);
    lines::line_decimal(room, at, b" ", others as u64)
}

// The line of each site.
fn put_sites(room: &mut [u8], table: &[u64], n: usize) -> usize
    requires n_in_bounds { 47 * n ≤ length room.old }
    requires rows { Rows table.now n }
    requires n_bound { n ≤ 12 }
    ensures { Writes (cat (risk_line (rules_of table.now) n) n) room.old 0 result room.new }
{
    let mut end: usize = 0;
    let mut v: u64 = 0;
    while v < n as u64 {
        end = put_site(room, end, table, n, v);
        v += 1;
    }
    end
}

// `fewest K`, `first MASK`, `first sites ..` of the first set.
fn put_first(room: &mut [u8], at: usize, first: u64) -> usize
    requires { at + 300 ≤ length room.old }
    ensures { Writes (first_lines (size first) first) room.old at result room.new }
{
    let fewest = masks::size(first);
    let at = lines::line_decimal(room, at, b"fewest ", fewest as u64);
    let at = lines::line_mask(room, at, b"first ", first);
    members::line_members(room, at, b"first sites", first)
}

// The lines of a checked table.
fn put_risk(room: &mut [u8], table: &[u64], n: usize) -> usize
    requires in_bounds { 1000 ≤ length room.old }
    requires rows { Rows table.now n }
    requires n_bound { n ≤ 12 }
    ensures { Writes (risk_lines n (rules_of table.now)) room.old 0 result room.new }
{
    let at = put_sites(room, table, n);
    let first = risk_search::first_ruin(table, n);
    put_first(room, at, first)
}

// The risk of a table that is read: its lines, or the refusal and what it means.
fn risk_read(table: &[u64], room: &mut [u8]) -> usize
    requires { 1000 ≤ length room.old }
    ensures { Writes (risk_read (lists table.now)) room.old 0 result room.new }
{
    let q = table::check(table);
    if let Err(r) = q {
        return refusal_lines::put_explained(room, 0, r);
    }
    let n = table.len() / 63;
    if MOST < n {
        return refusal_lines::put_explained(room, 0, Refusal::Large);
    }
    put_risk(room, table, n)
}

// The risk of the table on an image: its lines, or the refusal and what it means. Answers the length of the text.
pub fn risk(image: &[u8], room: &mut [u8; ROOM]) -> usize
    ensures text { Writes (risk_text image.now) room.old 0 result room.new }
    ensures counts { IsPrefixLen result room.new }
{
    let mut table = [0u64; 4032];
    let q = image::read(image, &mut table);
    match q {
        Ok(n) => risk_read(&table[..63 * (n as usize)], room),
        Err(r) => refusal_lines::put_explained(room, 0, r),
    }
}
