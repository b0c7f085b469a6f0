// Families of sets as words: the sites 6 to 11 are handed on, so that each word gets what stands in those below it.
#![tactic(auto)]

ghost use Rattle.std.specs.Prelude.{◌≡◌, ◌<◌, ◌+◌, ◌*◌, length};
ghost use Rattle.spread_words.specs.Inner.{Spread, joins, Joined, near_place, far_place};

// Eight words as the sets of three sites: each gets what stands in those below it.
fn join(words: &mut [u64; 64], start: usize, step: usize)
    requires { start + 7 * step < 64 }
    ensures { words.new ≡ joins (λ i. start + i * step) words.old }
{
    let a = words[start];
    let b = words[start + step] | a;
    let c = words[start + 2 * step] | a;
    let d = words[start + 3 * step] | b | c;
    let e = words[start + 4 * step] | a;
    let f = words[start + 5 * step] | b | e;
    let g = words[start + 6 * step] | c | e;
    let h = words[start + 7 * step] | d | f | g;
    words[start + step] = b;
    words[start + 2 * step] = c;
    words[start + 3 * step] = d;
    words[start + 4 * step] = e;
    words[start + 5 * step] = f;
    words[start + 6 * step] = g;
    words[start + 7 * step] = h;
}

// Sites 6, 7 and 8 are handed on.
fn near(words: &mut [u64; 64])
    requires { length words.old ≡ 64 }
    ensures { Joined near_place words.old 8 words.new }
{
    for k in 0..8 {
        join(words, k * 8, 1);
    }
}

// Sites 9, 10 and 11 are handed on.
fn far(words: &mut [u64; 64])
    requires { length words.old ≡ 64 }
    ensures { Joined far_place words.old 8 words.new }
{
    for k in 0..8 {
        join(words, k, 8);
    }
}

// Sites 6 to 11 are handed on: each word gets what stands in those below it.
pub fn spread(words: &mut [u64; 64])
    requires { length words.old ≡ 64 }
    ensures { Spread words.old words.new }
{
    near(words);
    far(words);
}
