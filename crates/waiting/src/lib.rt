// The places of the calls that wait: those refused with 15.
#![tactic(auto)]

ghost use Rattle.std.specs.Prelude.{◌≡◌, cond, ◌+◌, ◌<◌, ◌≤◌, length, set};
ghost use Rattle.waiting.specs.Inner.{Listed};

// A kept place as a number that can be an index.
pub fn place(x: u16) -> usize
    ensures { result ≡ x }
{
    usize::from(x)
}

// Place i behind the first `count` of the places that wait, if its call waits: how many they are then.
pub fn keep(waiting: &mut [u16], count: usize, i: usize, waits: bool) -> usize
    requires count_in_bounds { count < length waiting.old }
    requires i_bound { i < 65536 }
    ensures many { result ≡ cond waits (count + 1) count }
    ensures memory { waiting.new ≡ cond waits (set waiting.old count i) waiting.old }
{
    if !waits {
        return count;
    }
    waiting[count] = i as u16;
    count + 1
}

// The places of the calls that were refused with 15, in order: how many they are.
pub fn gather(answers: &[u8], waiting: &mut [u16]) -> usize
    requires answers_in_bounds { length answers.now ≤ length waiting.old }
    requires answers_len_bound { length answers.now ≤ 4096 }
    ensures places { Listed answers.now 0 (length answers.now) waiting.new 0 result }
    ensures few { result ≤ length answers.now }
{
    let mut count: usize = 0;
    for (i, answer) in answers.iter().enumerate() {
        count = keep(waiting, count, i, *answer == 15);
    }
    count
}
