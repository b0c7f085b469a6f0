// The two verdicts as public calls: each checks table and set itself, in the order table, 10, 16. Of each the table is checked first; the rest is asked of
// its rows.
#![tactic(auto)]

ghost use Rattle.std.specs.Prelude.{◌≡◌, ltb};
ghost use Rattle.refusals.specs.First.{or_else, refuse};
ghost use Rattle.refusals.specs.declared.Refusal as Refused;
ghost use Rattle.sets.specs.Groups.{lists, outsider};
ghost use Rattle.sets.specs.Inner.Rows.{Rows, rules_of};
ghost use Rattle.questions.specs.Answers.{to_sharing, shared, to_standing, intact};
ghost use Rattle.verdicts.specs.Verdicts as Verdicts;

use questions::Pair;
use refusals::Refusal;

// Verdicts on shared sites and on intact sites are given for so many sites at most.
const MOST: usize = 12;

// Do every two quorums have a common site? Of rows: 16, then the answer.
pub fn shared_of(rows: &[u64], n: usize) -> Result<Option<Pair>, Refusal>
    requires { Rows rows.now n }
    ensures { result ≡ to_sharing (refuse (ltb 12 n) Refused.Refusal.Large) (Verdicts.meets (rules_of rows.now).inside n)
        (Verdicts.first_apart (rules_of rows.now).inside n)
        (Verdicts.beside (rules_of rows.now).inside n (Verdicts.first_apart (rules_of rows.now).inside n)) }
{
    if MOST < n {
        return Err(Refusal::Large);
    }
    let pair = shared_sites::two_apart(rows, n);
    if pair.first == masks::single(n as u64) {
        return Ok(None);
    }
    Ok(Some(pair))
}

// Do every two quorums have a common site?
pub fn shared(table: &[u64]) -> Result<Option<Pair>, Refusal>
    ensures { result ≡ shared (lists table.now) }
{
    table::check(table)?;
    shared_of(table, table.len() / 63)
}

// Which sites are intact when those of the set are faulty? Of rows: 10, 16, then the answer.
pub fn intact_of(rows: &[u64], n: usize, faulty: u64) -> Result<u64, Refusal>
    requires { Rows rows.now n }
    ensures { result ≡ to_standing (or_else (outsider n faulty) (refuse (ltb 12 n) Refused.Refusal.Large))
        (Verdicts.intact (rules_of rows.now) n faulty) }
{
    sets::check_set(n, faulty)?;
    if MOST < n {
        return Err(Refusal::Large);
    }
    Ok(intact_sites::intact(rows, n, faulty))
}

// Which sites are intact when those of the set are faulty?
pub fn intact(table: &[u64], faulty: u64) -> Result<u64, Refusal>
    ensures { result ≡ intact (lists table.now) faulty }
{
    table::check(table)?;
    intact_of(table, table.len() / 63, faulty)
}
