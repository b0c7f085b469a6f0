// Which sets have a slice of a site inside, of all sets of at most 12 sites, as words; and in which sets each member has one.
#![tactic(auto)]

ghost use Rattle.std.specs.Prelude.{◌≡◌, true, ◌&&◌, ◌||◌, not, cond, ◌<◌, ◌≤◌, ◌+◌, ◌*◌, eqb, length};
ghost use Rattle.masks.specs.Mask.{has, gather};
ghost use Rattle.table.specs.Table.{count_of};
ghost use Rattle.sets.specs.Slices.{slices_of};
ghost use Rattle.sets.specs.Inner.Rows.{of_sets, Rows, ListedRow, rules_of};
ghost use Rattle.set_words.specs.Inner.{Says, Above, in_family};
ghost use Rattle.inside_words.specs.Inner.{Empty, Marked, fits};

// What stands in the word of a slice: that of the slice before, if it is the same word, else nothing.
fn stands(here: usize, at: usize, word: u64) -> u64
    ensures { result ≡ cond (eqb here at) word 0 }
{
    if here == at { word } else { 0 }
}

// Each slice that site v lists marks the sets that contain it and have the same sites of the last six. Slices ascend, so that those of a word follow each
// other.
fn mark_listed(table: &[u64], n: usize, v: usize, above: &[u64; 64], words: &mut [u64; 64])
    requires table_len { length table.now ≡ 63 * n }
    requires listed_row { ListedRow table.now n v }
    requires n_bound { n ≤ 12 }
    requires v_lt_n { v < n }
    requires above { Above 64 above.now }
    requires empty { Empty words.old }
    ensures { Marked table.now v (count_of table.now v) words.new }
{
    let many = table[63 * v] as usize;
    let mut at: usize = 0;
    let mut word = 0u64;
    for i in 0..many {
        let q = table[63 * v + 1 + i];
        let here = (q / 64) as usize;
        word = stands(here, at, word) | above[(q % 64) as usize];
        words[here] = word;
        at = here;
    }
}

// The sets that have a slice of site v inside, where its row lists its slices.
fn inside_listed(table: &[u64], n: usize, v: usize, above: &[u64; 64], words: &mut [u64; 64])
    requires table_len { length table.now ≡ 63 * n }
    requires listed_row { ListedRow table.now n v }
    requires n_bound { n ≤ 12 }
    requires v_lt_n { v < n }
    requires above { Above 64 above.now }
    requires empty { Empty words.old }
    ensures { Says ((slices_of table.now).inside v) words.new }
{
    mark_listed(table, n, v, above, words);
    spread_words::spread(words);
}

// Of a row of sets: which sets of word w have a slice of site v inside.
pub fn met_word(table: &[u64], n: usize, v: usize, w: usize) -> u64
    requires rows { Rows table.now n }
    requires v_lt_n { v < n }
    requires v_value { of_sets table.now v ≡ true }
    requires w_bound { w < 64 }
    ensures { result ≡ gather 64 (λ j. (rules_of table.now).inside v (w * 64 + j)) }
{
    let mut word = 0u64;
    for j in 0..64 {
        if sets::has_met(table, n, v, (w * 64 + j) as u64) {
            word |= masks::single(j as u64);
        }
    }
    word
}

// The sets that have a slice of site v inside, where its row holds sets with thresholds.
fn inside_met(table: &[u64], n: usize, v: usize, words: &mut [u64; 64])
    requires rows { Rows table.now n }
    requires v_lt_n { v < n }
    requires v_value { of_sets table.now v ≡ true }
    requires words_len { length words.old ≡ 64 }
    ensures { Says ((rules_of table.now).inside v) words.new }
{
    for (w, word) in words.iter_mut().enumerate() {
        *word = met_word(table, n, v, w);
    }
}

// The sets that have a slice of site v inside; none if there is no such site.
pub fn inside(table: &[u64], n: usize, v: usize, above: &[u64; 64], words: &mut [u64; 64])
    requires rows { Rows table.now n }
    requires n_bound { n ≤ 12 }
    requires above { Above 64 above.now }
    requires empty { Empty words.old }
    ensures { Says ((rules_of table.now).inside v) words.new }
{
    if n <= v {
        return;
    }
    if sets::of_sets(table, n, v) {
        inside_met(table, n, v, words);
        return;
    }
    inside_listed(table, n, v, above, words);
}

// Of the sets those that site v is not in or that the words name.
fn narrow(v: usize, words: &[u64; 64], sets: &mut [u64; 64])
    requires v_bound { v < 12 }
    requires sets_len { length sets.old ≡ 64 }
    ensures { Says (λ s. in_family sets.old s && (not (has s v) || in_family words.now s)) sets.new }
{
    for (w, word) in sets.iter_mut().enumerate() {
        *word &= set_words::lacking(v, w) | words[w];
    }
}

// Of the sets in which each member below v has a slice, those in which v has one, or is no member.
fn narrow_by(table: &[u64], n: usize, v: usize, above: &[u64; 64], sets: &mut [u64; 64])
    requires rows { Rows table.now n }
    requires n_bound { n ≤ 12 }
    requires v_bound { v < 12 }
    requires above { Above 64 above.now }
    requires says { Says (fits (rules_of table.now) 0 v) sets.old }
    ensures { Says (fits (rules_of table.now) 0 (v + 1)) sets.new }
{
    let mut words = [0u64; 64];
    inside(table, n, v, above, &mut words);
    narrow(v, &words, sets);
}

// The sets in which each member has a slice, of all sets.
pub fn fitting(table: &[u64], n: usize, above: &[u64; 64], sets: &mut [u64; 64])
    requires rows { Rows table.now n }
    requires n_bound { n ≤ 12 }
    requires above { Above 64 above.now }
    requires says { Says (fits (rules_of table.now) 0 0) sets.old }
    ensures { Says (fits (rules_of table.now) 0 12) sets.new }
{
    for v in 0..12 {
        narrow_by(table, n, v, above, sets);
    }
}
