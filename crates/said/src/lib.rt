// An answer as a call says it: its number is answered, and its place and values are written to `out`. Here those of a check, which has no value, and those of
// a call that answers one number.
#![tactic(auto)]

ghost use Rattle.std.specs.Prelude.{◌≡◌};
ghost use Rattle.said.specs.Said.{of_check, of_number};

use refusals::Refusal;

pub fn check(answer: Result<(), Refusal>, out: &mut [u64; 4]) -> u64
    ensures answer { result ≡ (of_check answer).number }
    ensures memory { out.new ≡ (of_check answer).out }
{
    match answer {
        Ok(()) => telling::give(out, 0, 0, 0),
        Err(r) => telling::refuse(out, r),
    }
}

pub fn number(answer: Result<u64, Refusal>, out: &mut [u64; 4]) -> u64
    ensures answer { result ≡ (of_number answer).number }
    ensures memory { out.new ≡ (of_number answer).out }
{
    match answer {
        Ok(n) => telling::give(out, n, 0, 0),
        Err(r) => telling::refuse(out, r),
    }
}
