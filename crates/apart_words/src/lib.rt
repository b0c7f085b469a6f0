// Two quorums without a common site, searched for in 64 sets at a time. With a set b: of the table with the sites of b deleted, whose quorums are looked for
// together with b.
#![tactic(auto)]

ghost use Rattle.std.specs.Prelude.{◌≡◌, ◌&&◌, not, ◌<◌, ◌≤◌, ◌^◌, eqb, length};
ghost use Rattle.masks.specs.Mask.{within};
ghost use Rattle.sets.specs.Inner.Rows.{Rows, rules_of};
ghost use Rattle.verdicts.specs.Verdicts.{first_apart};
ghost use Rattle.set_words.specs.Inner.{Says, Above, in_family};
ghost use Rattle.inside_words.specs.Inner.{fits};
ghost use Rattle.apart_words.specs.Inner.{Containing, Turn, turned_at, turned_unless, Turned, Beside, quorum_with};

// The sets of word w that contain b: as many as contain its first six sites, if w contains the others.
fn chosen(high: u64, w: u64, low: u64) -> u64
    ensures { Containing high w low result }
{
    if masks::within(high, w) { low } else { 0 }
}

// Of the sets those that contain b.
fn contain(b: u64, above: &[u64; 64], sets: &mut [u64; 64])
    requires b_bound { b < 4096 }
    requires above { Above 64 above.now }
    requires sets_len { length sets.old ≡ 64 }
    ensures { Says (λ s. in_family sets.old s && within b s) sets.new }
{
    let high = b / 64;
    let low = above[(b % 64) as usize];
    for (w, word) in sets.iter_mut().enumerate() {
        *word &= chosen(high, w as u64, low);
    }
}

// Of the sets those that contain b and another site.
fn leave(b: u64, above: &[u64; 64], sets: &mut [u64; 64])
    requires b_bound { b < 4096 }
    requires above { Above 64 above.now }
    requires sets_len { length sets.old ≡ 64 }
    ensures { Says (λ s. (in_family sets.old s && within b s) && not (eqb s b)) sets.new }
{
    contain(b, above, sets);
    let w = (b / 64) as usize;
    sets[w] = masks::minus(sets[w], masks::single(b % 64));
}

// Of 64 sets, with site x the sets without it, and without it those with it and those without it.
fn turn_word(x: usize, word: u64) -> u64
    requires { x < 6 }
    ensures { Turn x word result }
{
    let rest = set_words::without(x);
    let by = masks::single(x as u64);
    let low = word & rest;
    low | ((word >> by) & rest) | (low << by)
}

// The same word by word.
fn turn(x: usize, words: &mut [u64; 64])
    requires x_bound { x < 6 }
    requires words_len { length words.old ≡ 64 }
    ensures { Says (turned_at x words.old) words.new }
{
    for word in words.iter_mut() {
        *word = turn_word(x, *word);
    }
}

// Site x is turned unless it is in b.
fn turn_unless(b: u64, x: usize, words: &mut [u64; 64])
    requires x_bound { x < 6 }
    requires words_len { length words.old ≡ 64 }
    ensures { Says (turned_unless b x words.old) words.new }
{
    if !masks::has(b, x as u64) {
        turn(x, words);
    }
}

// The first six sites but those of b are turned, one after the other.
fn turn_all(b: u64, words: &mut [u64; 64])
    requires { length words.old ≡ 64 }
    ensures { Turned b 6 words.old words.new }
{
    for x in 0..6 {
        turn_unless(b, x, words);
    }
}

// Of the sets of a word, each with the other sites of the last six but those of b, those beside which there is one of the sets.
fn beside(b: u64, sets: &[u64; 64], words: &mut [u64; 64])
    requires { length words.old ≡ 64 }
    ensures { Beside b sets.now words.new }
{
    *words = *sets;
    turn_all(b, words);
    spread_words::spread(words);
}

// The first of the sets beside which there is one, without b; 2^n if there is none.
fn search(table: &[u64], n: usize, b: u64, sets: &[u64; 64], words: &[u64; 64]) -> u64
    requires rows { Rows table.now n }
    requires n_bound { n ≤ 12 }
    requires b_bound { b < 2 ^ n }
    requires says { Says (quorum_with (rules_of table.now) n b) sets.now }
    requires beside { Beside b sets.now words.now }
    ensures { result ≡ first_apart ((rules_of table.now).deleted b) n }
{
    let high = (b / 64) as usize;
    for (w, word) in sets.iter().enumerate() {
        let both = *word & words[(63 - w) | high];
        if both != 0 {
            return masks::minus(w as u64 * 64 + set_words::first(both), b);
        }
    }
    masks::single(n as u64)
}

// The quorum of the smallest mask that has a quorum in its complement, of the sets in which each member outside b has a slice; 2^n if there is none. Left are
// those sets that are quorums together with b.
pub fn first_apart(table: &[u64], n: usize, above: &[u64; 64], b: u64, sets: &mut [u64; 64]) -> u64
    requires rows { Rows table.now n }
    requires n_bound { n ≤ 12 }
    requires b_bound { b < 2 ^ n }
    requires above { Above 64 above.now }
    requires says { Says (fits (rules_of table.now) b 12) sets.old }
    ensures first { result ≡ first_apart ((rules_of table.now).deleted b) n }
    ensures quorums { Says (quorum_with (rules_of table.now) n b) sets.new }
{
    leave(b, above, sets);
    let mut words = [0u64; 64];
    beside(b, sets, &mut words);
    search(table, n, b, sets, &words)
}
