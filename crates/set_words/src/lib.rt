// Families of sets of at most 12 sites: 64 words, in which the set w * 64 + j is bit j of word w.
#![tactic(auto)]

ghost use Rattle.std.specs.Prelude.{◌≡◌, ◌<◌, ◌+◌, ◌^◌, length};
ghost use Rattle.set_words.specs.Inner.{Without, Lacking, Above, FirstSet, LastSet};

// Of the sets of the first six sites, a bit each, those without site x.
pub fn without(x: usize) -> u64
    requires { x < 6 }
    ensures { Without x result }
{
    match x {
        0 => 0x5555_5555_5555_5555,
        1 => 0x3333_3333_3333_3333,
        2 => 0x0f0f_0f0f_0f0f_0f0f,
        3 => 0x00ff_00ff_00ff_00ff,
        4 => 0x0000_ffff_0000_ffff,
        _ => 0x0000_0000_ffff_ffff,
    }
}

// The sets of word w without site v.
pub fn lacking(v: usize, w: usize) -> u64
    requires v_bound { v < 12 }
    requires w_bound { w < 64 }
    ensures { Lacking v w result }
{
    if v < 6 {
        return without(v);
    }
    if masks::has(w as u64, (v - 6) as u64) {
        return 0;
    }
    u64::MAX
}

// The sets with site x too: those that contain i, and of them those with x.
fn above_with(x: usize, list: &mut [u64; 64])
    requires x_bound { x < 6 }
    requires above { Above (2 ^ x) list.old }
    ensures { Above (2 ^ (x + 1)) list.new }
{
    let half = masks::single(x as u64) as usize;
    let rest = without(x);
    for i in 0..half {
        list[half + i] = masks::minus(list[i], rest);
    }
}

// Of each set of the first six sites the sets that contain it.
pub fn above(list: &mut [u64; 64])
    requires { length list.old ≡ 64 }
    ensures { Above 64 list.new }
{
    list[0] = u64::MAX;
    for x in 0..6 {
        above_with(x, list);
    }
}

// The first of the sets of a word that has one.
pub fn first(word: u64) -> u64
    requires { word ≡ 0 → ⊥ }
    ensures { FirstSet word result }
{
    u64::from(word.trailing_zeros())
}

// The last of the sets of a word that has one.
pub fn last(word: u64) -> u64
    requires { word ≡ 0 → ⊥ }
    ensures { LastSet word result }
{
    63 - u64::from(word.leading_zeros())
}
