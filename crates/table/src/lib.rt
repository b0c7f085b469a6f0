// The table of groups in memory: its check.
#![tactic(auto)]

ghost use Rattle.std.specs.Prelude.{◌≡◌, ◌*◌, ◌≤◌, length};
ghost use Rattle.table.specs.Table.{sites_check, check};

use refusals::Refusal;

// The n sites of a table, in order.
pub fn check_sites(table: &[u64], n: usize) -> Result<(), Refusal>
    requires table_len { length table.now ≡ 63 * n }
    requires n_bound { n ≤ 64 }
    ensures { result ≡ sites_check n table.now }
{
    for v in 0..n {
        rows::check_site(&table[63 * v..63 * v + 63], n as u64, v as u64, v as u64)?;
    }
    Ok(())
}

// The check of a table in memory: 1, then site by site.
pub fn check(table: &[u64]) -> Result<(), Refusal>
    ensures { result ≡ check table.now }
{
    let n = table.len() / 63;
    if table.len() % 63 != 0 {
        return Err(Refusal::Length);
    }
    if n == 0 {
        return Err(Refusal::Length);
    }
    if 64 < n {
        return Err(Refusal::Length);
    }
    check_sites(table, n)
}
