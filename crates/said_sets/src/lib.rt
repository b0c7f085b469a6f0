// An answer to a question about sets as a call says it: its number is answered, and its place and values are written to the four numbers of `out`.
#![tactic(auto)]

ghost use Rattle.std.specs.Prelude.{◌≡◌};
ghost use Rattle.said_sets.specs.Said.{of_holds, of_greatest, of_sharing};

use questions::{Pair, SetLeft};
use refusals::Refusal;

pub fn holds(answer: Result<bool, Refusal>, out: &mut [u64; 4]) -> u64
    ensures answer { result ≡ (of_holds answer).number }
    ensures memory { out.new ≡ (of_holds answer).out }
{
    match answer {
        Ok(true) => telling::give(out, 1, 0, 0),
        Ok(false) => telling::give(out, 0, 0, 0),
        Err(r) => telling::refuse(out, r),
    }
}

pub fn greatest(answer: Result<SetLeft, Refusal>, out: &mut [u64; 4]) -> u64
    ensures answer { result ≡ (of_greatest answer).number }
    ensures memory { out.new ≡ (of_greatest answer).out }
{
    match answer {
        Ok(left) => telling::give(out, left.set, left.rounds, 0),
        Err(r) => telling::refuse(out, r),
    }
}

pub fn sharing(answer: Result<Option<Pair>, Refusal>, out: &mut [u64; 4]) -> u64
    ensures answer { result ≡ (of_sharing answer).number }
    ensures memory { out.new ≡ (of_sharing answer).out }
{
    match answer {
        Ok(None) => telling::give(out, 1, 0, 0),
        Ok(Some(pair)) => telling::give(out, 0, pair.first, pair.second),
        Err(r) => telling::refuse(out, r),
    }
}
