// Whether most calls of a list name a site, kind or side that there is not: such bytes may be no list of calls.
#![tactic(auto)]

ghost use Rattle.std.specs.Prelude.{◌≡◌};
ghost use Rattle.rules.specs.Rules.{out_of_range};
ghost use Rattle.strange_calls.specs.Strange.{strange_calls, mostly_strange};
ghost use Rattle.votes.specs.Call.{call};

// A site at or above n, a kind over 2, a side over 1.
#[tactic(auto, unfolding(rules::specs::Rules::out_of_range))]
fn is_strange(n: u64, kind: u8, from: u8, to: u8, side: u8) -> bool
    ensures { result ≡ out_of_range n (call kind from to side) }
{
    n <= u64::from(from) || n <= u64::from(to) || kind > 2 || side > 1
}

// How many calls of a list are so.
fn strange_calls(list: &[u8], n: u64) -> u64
    ensures { result ≡ strange_calls n list.now }
{
    let calls = list.len() / 4;
    let mut count: u64 = 0;
    for i in 0..calls {
        let k = 4 * i;
        count += u64::from(is_strange(n, list[k], list[k + 1], list[k + 2], list[k + 3]));
    }
    count
}

// Whether more than half of the calls are so.
pub fn mostly_strange(list: &[u8], n: u64) -> bool
    ensures { result ≡ mostly_strange n list.now }
{
    let calls = (list.len() / 4) as u64;
    calls < 2 * strange_calls(list, n)
}
