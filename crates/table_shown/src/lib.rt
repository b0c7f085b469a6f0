// A table of groups, written as a person writes it.
#![tactic(auto)]

ghost use Rattle.std.specs.Prelude.{◌≡◌, cond, [], ◌+◌, ◌*◌, ◌/◌, ◌≤◌, ◌<◌, eqb, length, Ok};
ghost use Rattle.ground.specs.Pieces.{cat};
ghost use Rattle.rows.specs.Site.{count, slice};
ghost use Rattle.table.specs.Table.{Table, check};
ghost use Rattle.text.specs.Text.{ascii};
ghost use Rattle.text.specs.Written.{Writes};
ghost use Rattle.table_shown.specs.Show.{placed, row, rows, head_line, show};

// A bar before every group but the first.
fn put_bar(room: &mut [u8], at: usize, k: usize) -> usize
    requires { at + 2 ≤ length room.old }
    ensures { Writes (cond (eqb k 0) [] (ascii " |")) room.old at result room.new }
{
    if k == 0 {
        return at;
    }
    text::put(room, at, b" |")
}

// Group k of a site.
fn put_placed(room: &mut [u8], at: usize, m: &[u64], k: usize) -> usize
    requires m_len { length m.now ≡ 63 }
    requires k_bound { k < 62 }
    requires at_in_bounds { at + 212 ≤ length room.old }
    ensures { Writes (placed m.now k) room.old at result room.new }
{
    let q = m[1 + k];
    let at = put_bar(room, at, k);
    members::put_members(room, at, q)
}

// The first many groups of a site.
fn put_groups(room: &mut [u8], at: usize, m: &[u64], many: usize) -> usize
    requires m_len { length m.now ≡ 63 }
    requires many_bound { many ≤ 62 }
    requires at_in_bounds { at + 12046 ≤ length room.old }
    ensures { Writes (cat (placed m.now) many) room.old at result room.new }
{
    let mut end = at;
    for k in 0..many {
        end = put_placed(room, end, m, k);
    }
    end
}

// The line of site v, with its 63 numbers.
fn put_row(room: &mut [u8], at: usize, v: u64, m: &[u64]) -> usize
    requires m_len { length m.now ≡ 63 }
    requires m_bound { count m.now ≤ 62 }
    requires v_bound { v < 64 }
    requires at_in_bounds { at + 12070 ≤ length room.old }
    ensures { Writes (row v m.now) room.old at result room.new }
{
    let many = m[0] as usize;
    let at = text::put_decimal(room, at, v);
    let at = text::put(room, at, b":");
    let at = put_groups(room, at, m, many);
    text::put(room, at, b"\n")
}

// `sites N`
fn put_head(room: &mut [u8], at: usize, n: u64) -> usize
    requires { at + 27 ≤ length room.old }
    ensures { Writes (head_line n) room.old at result room.new }
{
    let at = text::put(room, at, b"sites ");
    let at = text::put_decimal(room, at, n);
    text::put(room, at, b"\n")
}

// The lines of the sites.
fn put_rows(room: &mut [u8], at: usize, table: &[u64], n: usize) -> usize
    requires table { Table table.now n }
    requires at_in_bounds { at + 770120 ≤ length room.old }
    ensures { Writes (rows table.now n) room.old at result room.new }
{
    let mut end = at;
    for v in 0..n {
        end = put_row(room, end, v as u64, &table[63 * v..63 * v + 63]);
    }
    end
}

// A sound table as text at the start of a lent room: the answer is the text's length, and what stands behind it is kept.
pub fn show(room: &mut [u8], table: &[u64]) -> usize
    requires table_value { check table.now ≡ Ok tt }
    requires in_bounds { 770147 ≤ length room.old }
    ensures { Writes (show table.now) room.old 0 result room.new }
{
    let n = table.len() / 63;
    let at = put_head(room, 0, n as u64);
    put_rows(room, at, table, n)
}
