// A refusal, or values without one, as a call says them: the number is answered, and place and values are written to the four numbers of `out`.
#![tactic(auto)]

ghost use Rattle.std.specs.Prelude.{◌≡◌};
ghost use Rattle.telling.specs.Telling.{told, given};

use refusals::Refusal;

// No refusal, and up to three values.
pub fn give(out: &mut [u64; 4], a: u64, b: u64, c: u64) -> u64
    ensures answer { result ≡ (given a b c).number }
    ensures memory { out.new ≡ (given a b c).out }
{
    *out = [0, a, b, c];
    0
}

// A refusal: its number, its place, and no values.
pub fn refuse(out: &mut [u64; 4], x: Refusal) -> u64
    ensures answer { result ≡ (told x).number }
    ensures memory { out.new ≡ (told x).out }
{
    *out = [refusals::place(x), 0, 0, 0];
    refusals::number(x)
}
