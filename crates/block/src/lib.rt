// The block of 512 bytes: its two sums, the check of a lent block, and the check written. Nothing is copied: the sums run over the lent bytes.
#![tactic(auto)]

ghost use Rattle.std.specs.Prelude.{◌≡◌, ◌+◌, ◌*◌, ◌%◌, ◌^◌, ◌≤◌, length, take};
ghost use Rattle.block.specs.Block.{sum_s, sum_t, check_s, check_t, check, seal};

#[derive(Clone, Copy)]
pub struct Sums {
    pub s: u32,
    pub t: u32,
}

// Both sums with word k, from those of the k words before it: s becomes s + w, then t becomes t + s.
fn with_word(b: &[u8], k: usize, sums: Sums) -> Sums
    requires k_in_bounds { 4 * k + 4 ≤ length b.now }
    requires s_value { sums.s ≡ sum_s b.now k % 2 ^ 32 }
    requires t_value { sums.t ≡ sum_t b.now k % 2 ^ 32 }
    ensures s_value_2 { result.s ≡ sum_s b.now (k + 1) % 2 ^ 32 }
    ensures t_value_2 { result.t ≡ sum_t b.now (k + 1) % 2 ^ 32 }
{
    let w = le::get32(b, 4 * k);
    let s = sums.s.wrapping_add(w);
    let t = sums.t.wrapping_add(s);
    Sums { s, t }
}

// With the six words from word k on, one after the other.
fn with_six(b: &[u8], k: usize, sums: Sums) -> Sums
    requires k_in_bounds { 4 * k + 24 ≤ length b.now }
    requires s_value { sums.s ≡ sum_s b.now k % 2 ^ 32 }
    requires t_value { sums.t ≡ sum_t b.now k % 2 ^ 32 }
    ensures s_value_2 { result.s ≡ sum_s b.now (k + 6) % 2 ^ 32 }
    ensures t_value_2 { result.t ≡ sum_t b.now (k + 6) % 2 ^ 32 }
{
    let one = with_word(b, k, sums);
    let two = with_word(b, k + 1, one);
    let three = with_word(b, k + 2, two);
    let four = with_word(b, k + 3, three);
    let five = with_word(b, k + 4, four);
    with_word(b, k + 5, five)
}

// Both sums over the first 126 words, modulo 2^32. Six words a turn, so that little but the sums themselves takes time.
pub fn sum_words(b: &[u8]) -> Sums
    requires { 504 ≤ length b.now }
    ensures { (result.s ≡ check_s b.now) × (result.t ≡ check_t b.now) }
{
    let mut sums = Sums { s: 0, t: 0 };
    for turn in 0..21 {
        sums = with_six(b, 6 * turn, sums);
    }
    sums
}

// The lone block's answer: 0 for a block whose check is right, 1 for one that is not 512 bytes, 2 where the check differs.
pub fn check(b: &[u8]) -> u8
    ensures { result ≡ check b.now }
{
    if b.len() != 512 {
        return 1;
    }
    let sums = sum_words(b);
    let s = sums.s;
    let t = sums.t;
    if le::get32(b, 504) != s {
        return 2;
    }
    if le::get32(b, 508) == t {
        return 0;
    }
    2
}

// Writes bytes 504 to 511 of a block: the check of those before them.
pub fn put_sums(b: &mut [u8])
    requires { length b.old ≡ 512 }
    ensures { b.new ≡ seal (take 504 b.old) }
{
    let sums = sum_words(b);
    let s = sums.s;
    let t = sums.t;
    le::put32(b, 504, s);
    le::put32(b, 508, t);
}
