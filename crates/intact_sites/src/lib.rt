// Intact sites of a checked table of at most 12 sites.
#![tactic(auto)]

ghost use Rattle.std.specs.Prelude.{◌≡◌, ◌≤◌};
ghost use Rattle.verdicts.specs.Verdicts.{intact};
ghost use Rattle.sets.specs.Inner.Rows.{Rows, rules_of};

mod search;

// The sites that are intact when those of f are faulty. What f leaves has a largest quorum; if that is empty, nobody is intact, else all other sites count as
// faulty.
pub fn intact(table: &[u64], n: usize, f: u64) -> u64
    requires rows { Rows table.now n }
    requires n_bound { n ≤ 12 }
    ensures { result ≡ intact (rules_of table.now) n f }
{
    if !masks::within(f, masks::all_below(n as u64)) {
        return 0;
    }
    let left = shared_sites::beside(table, n, f);
    if left == 0 {
        return 0;
    }
    search::intact(table, n, left)
}
