// Pairs of quorums without a common site that were found with a set deleted. They have no common site with any larger set deleted either, as long as something
// of both is left; so a larger set is not dispensable. The last 16 are kept: of pair k the deleted set, the first and the second at 3 k, and at 48 which place
// comes next.
#![tactic(auto)]

ghost use Rattle.std.specs.Prelude.{◌≡◌, true, false};
ghost use Rattle.masks.specs.Mask.{minus, all_below};
ghost use Rattle.sets.specs.Inner.Rows.{Rows, rules_of};
ghost use Rattle.verdicts.specs.Verdicts.{dispensable};
ghost use Rattle.known_pairs.specs.Inner.{Pair, Pairs, Left};

// The deleted set is inside gone, and something of both is left.
fn is_left(rest: u64, gone: u64, deleted: u64, p: u64, q: u64) -> bool
    ensures { Left rest gone deleted p q result }
{
    masks::within(deleted, gone) && p & rest != 0 && q & rest != 0
}

// Some pair that is kept shows that the sites outside rest are not dispensable.
pub fn is_known(table: &[u64], n: usize, rest: u64, pairs: &[u64; 49]) -> bool
    requires rows { Rows table.now n }
    requires pairs { Pairs (rules_of table.now) n pairs.now }
    ensures { result ≡ true → dispensable (rules_of table.now) n (minus (all_below n) rest) ≡ false }
{
    let gone = masks::minus(masks::all_below(n as u64), rest);
    for k in 0..16 {
        if is_left(rest, gone, pairs[3 * k], pairs[3 * k + 1], pairs[3 * k + 2]) {
            return true;
        }
    }
    false
}

// One pair more, in place of the oldest.
pub fn note(table: &[u64], n: usize, gone: u64, p: u64, q: u64, pairs: &mut [u64; 49])
    requires pair { (q ≡ 0 → ⊥) → Pair (rules_of table.now) n gone p q }
    requires pairs { Pairs (rules_of table.now) n pairs.old }
    ensures { Pairs (rules_of table.now) n pairs.new }
{
    let count = pairs[48] % 16;
    let k = count as usize;
    pairs[48] = count + 1;
    pairs[3 * k] = gone;
    pairs[3 * k + 1] = p;
    pairs[3 * k + 2] = q;
}
