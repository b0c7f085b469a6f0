// Of each of 12 sites the sets that do not contain it or have a slice of it inside, as words, kept for all: from them the sets in which each member outside a
// set has a slice.
#![tactic(auto)]

ghost use Rattle.std.specs.Prelude.{◌≡◌, ◌&&◌, ◌<◌, ◌≤◌, ◌+◌, length};
ghost use Rattle.sets.specs.Inner.Rows.{Rows, rules_of};
ghost use Rattle.set_words.specs.Inner.{Says, Above, in_family};
ghost use Rattle.inside_words.specs.Inner.{fits};
ghost use Rattle.contents.specs.Inner.{Contents, content_at};

// The words of site v are kept, with the sets that do not contain it.
fn keep(table: &[u64], b: u64, v: usize, words: &[u64; 64], kept: &mut [u64; 768])
    requires v_bound { v < 12 }
    requires says { Says ((rules_of table.now).inside v) words.now }
    requires contents { Contents (rules_of table.now) b v kept.old }
    ensures { Contents (rules_of table.now) b (v + 1) kept.new }
{
    for (w, word) in words.iter().enumerate() {
        kept[64 * v + w] = set_words::lacking(v, w) | *word;
    }
}

// One site more, unless it is in b.
fn keep_site(table: &[u64], n: usize, b: u64, v: usize, above: &[u64; 64], kept: &mut [u64; 768])
    requires rows { Rows table.now n }
    requires n_bound { n ≤ 12 }
    requires v_bound { v < 12 }
    requires above { Above 64 above.now }
    requires contents { Contents (rules_of table.now) b v kept.old }
    ensures { Contents (rules_of table.now) b (v + 1) kept.new }
{
    if !masks::has(b, v as u64) {
        let mut words = [0u64; 64];
        inside_words::inside(table, n, v, above, &mut words);
        keep(table, b, v, &words, kept);
    }
}

// All sites but those of b.
pub fn fill(table: &[u64], n: usize, b: u64, above: &[u64; 64], kept: &mut [u64; 768])
    requires rows { Rows table.now n }
    requires n_bound { n ≤ 12 }
    requires above { Above 64 above.now }
    requires kept_len { length kept.old ≡ 768 }
    ensures { Contents (rules_of table.now) b 12 kept.new }
{
    for v in 0..12 {
        keep_site(table, n, b, v, above, kept);
    }
}

// Of the sets those that site v is not in or has a slice in.
fn narrow(v: usize, kept: &[u64; 768], sets: &mut [u64; 64])
    requires v_bound { v < 12 }
    requires sets_len { length sets.old ≡ 64 }
    ensures { Says (λ s. in_family sets.old s && content_at kept.now v s) sets.new }
{
    for (w, word) in sets.iter_mut().enumerate() {
        *word &= kept[64 * v + w];
    }
}

// One site more is asked, unless it is in b.
fn narrow_unless(table: &[u64], b: u64, v: usize, kept: &[u64; 768], sets: &mut [u64; 64])
    requires v_bound { v < 12 }
    requires contents { Contents (rules_of table.now) b 12 kept.now }
    requires says { Says (fits (rules_of table.now) b v) sets.old }
    ensures { Says (fits (rules_of table.now) b (v + 1)) sets.new }
{
    if !masks::has(b, v as u64) {
        narrow(v, kept, sets);
    }
}

// The sets in which each member outside b has a slice, of all sets.
pub fn fitting(table: &[u64], b: u64, kept: &[u64; 768], sets: &mut [u64; 64])
    requires contents { Contents (rules_of table.now) b 12 kept.now }
    requires says { Says (fits (rules_of table.now) b 0) sets.old }
    ensures { Says (fits (rules_of table.now) b 12) sets.new }
{
    for v in 0..12 {
        narrow_unless(table, b, v, kept, sets);
    }
}
