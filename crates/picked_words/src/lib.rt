// Of a family of sets as words: those that have no site of a set, and the last below a set.
#![tactic(auto)]

ghost use Rattle.std.specs.Prelude.{◌≡◌, ◌&&◌, ◌<◌, ◌≤◌, ◌+◌, ◌*◌, eqb, length};
ghost use Rattle.std.specs.Int.Bits.{bit_and};
ghost use Rattle.set_words.specs.Inner.{Says, in_family};
ghost use Rattle.picked_words.specs.Inner.{Missing, Chosen, LastBelow};

// Of the sets of the first six sites those that do not have site x, if it is in m.
fn miss(m: u64, x: usize, word: u64) -> u64
    requires x_bound { x < 6 }
    requires missing { Missing m x word }
    ensures { Missing m (x + 1) result }
{
    if masks::has(m, x as u64) {
        return word & set_words::without(x);
    }
    word
}

// Of the sets of the first six sites those that have no site of m.
fn missing(m: u64) -> u64
    ensures { Missing m 6 result }
{
    let mut word = u64::MAX;
    for x in 0..6 {
        word = miss(m, x, word);
    }
    word
}

// The sets of word w that have no site of m: as many as have none of its first six, if w has none of the others.
fn chosen(high: u64, w: u64, low: u64) -> u64
    ensures { Chosen high w low result }
{
    if high & w == 0 { low } else { 0 }
}

// Of the sets those that have no site of m.
pub fn lack(m: u64, sets: &mut [u64; 64])
    requires m_bound { m < 4096 }
    requires sets_len { length sets.old ≡ 64 }
    ensures { Says (λ s. in_family sets.old s && eqb (bit_and s m) 0) sets.new }
{
    let high = m / 64;
    let low = missing(m);
    for (w, word) in sets.iter_mut().enumerate() {
        *word &= chosen(high, w as u64, low);
    }
}

// The last of the sets of the words before w; 0 if there is none.
fn last_before(sets: &[u64; 64], w: usize) -> u64
    requires { w ≤ 64 }
    ensures { LastBelow sets.now (w * 64) result }
{
    for k in (0..w).rev() {
        let word = sets[k];
        if word != 0 {
            return k as u64 * 64 + set_words::last(word);
        }
    }
    0
}

// The last of the sets below end; 0 if there is none.
pub fn last_below(sets: &[u64; 64], end: u64) -> u64
    requires { end < 4096 }
    ensures { LastBelow sets.now end result }
{
    let w = (end / 64) as usize;
    let word = sets[w] & masks::all_below(end % 64);
    if word != 0 {
        return w as u64 * 64 + set_words::last(word);
    }
    last_before(sets, w)
}
