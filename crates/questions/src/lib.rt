// The set questions as public calls, but for the two verdicts: each checks table, set and site itself, in the order table, 10, 11. Of each the table is
// checked first; the rest is asked of its rows. The answers of all.
#![tactic(auto)]

ghost use Rattle.std.specs.Prelude.{◌≡◌, not, ltb};
ghost use Rattle.refusals.specs.First.{or_else, refuse};
ghost use Rattle.refusals.specs.declared.Refusal as Refused;
ghost use Rattle.sets.specs.Groups.{lists, outsider};
ghost use Rattle.sets.specs.Quorum as Quorum;
ghost use Rattle.sets.specs.Inner.Rows.{Rows, rules_of};
ghost use Rattle.questions.specs.Answers.{to_holds, quorum, to_greatest, largest, blocks};

use refusals::Refusal;
pub use rounds::SetLeft;
pub use verdicts::Pair;

// Is the set a quorum? Of rows: 10, then the answer.
pub fn quorum_of(rows: &[u64], n: usize, set: u64) -> Result<bool, Refusal>
    requires { Rows rows.now n }
    ensures { result ≡ to_holds (outsider n set) (Quorum.quorum (rules_of rows.now).inside n set) }
{
    sets::check_set(n, set)?;
    Ok(sets::is_quorum(rows, n, set))
}

// Is the set a quorum?
pub fn quorum(table: &[u64], set: u64) -> Result<bool, Refusal>
    ensures { result ≡ quorum (lists table.now) set }
{
    table::check(table)?;
    quorum_of(table, table.len() / 63, set)
}

// The largest quorum inside the set. Of rows: 10, then the answer.
pub fn largest_of(rows: &[u64], n: usize, set: u64) -> Result<SetLeft, Refusal>
    requires { Rows rows.now n }
    ensures { result ≡ to_greatest (outsider n set) (Quorum.largest (rules_of rows.now).inside n set)
        (Quorum.rounds (rules_of rows.now).inside n set) }
{
    sets::check_set(n, set)?;
    Ok(rounds::largest(rows, n, set))
}

// The largest quorum inside the set.
pub fn largest(table: &[u64], set: u64) -> Result<SetLeft, Refusal>
    ensures { result ≡ largest (lists table.now) set }
{
    table::check(table)?;
    largest_of(table, table.len() / 63, set)
}

// Does the set block the site? Of rows: 10, 11, then the answer.
pub fn blocks_of(rows: &[u64], n: usize, set: u64, site: u64) -> Result<bool, Refusal>
    requires { Rows rows.now n }
    ensures { result ≡ to_holds (or_else (outsider n set) (refuse (not (ltb site n)) (Refused.Refusal.Range 0))) ((rules_of rows.now).blocked site set) }
{
    sets::check_set(n, set)?;
    let sites = n as u64;
    if sites <= site {
        return Err(Refusal::Range(0));
    }
    Ok(sets::blocks(rows, n, set, site as usize))
}

// Does the set block the site?
pub fn blocks(table: &[u64], set: u64, site: u64) -> Result<bool, Refusal>
    ensures { result ≡ blocks (lists table.now) set site }
{
    table::check(table)?;
    blocks_of(table, table.len() / 63, set, site)
}
