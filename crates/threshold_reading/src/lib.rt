// The reading of a text: byte after byte, set after set into 64 times 148 numbers. The rules are in specs/Lines.antt and specs/Reading.antt.
#![tactic(auto)]

ghost use Rattle.std.specs.Prelude.{◌≡◌, ◌+◌, ◌^◌, ◌≤◌, ◌<◌, length, get_or, set, replicate};
ghost use Rattle.std.specs.Int.Bits.{bit_or};
ghost use Rattle.threshold_grammar.specs.Grammar.{ThresholdSane};
ghost use Rattle.threshold_reading.specs.Inner.{Few};
ghost use Rattle.threshold_reading.specs.Lines.{held, enacted};
ghost use Rattle.threshold_reading.specs.Reading.{threshold_here, word_after, word_leaves, threshold_heard_as, threshold_finished, threshold_text_read};

use threshold_grammar::{Deed, Phase, Spot};
use threshold_nesting::Held;
use threshold_words::{Begun, Sign, Token};

// How many sets the line that is read has so far, and its innermost open set.
fn hold(s: Spot, t: &[u64]) -> Held
    requires t_len { length t.now ≡ 9472 }
    requires threshold_sane { ThresholdSane s }
    ensures { result ≡ held s t.now }
{
    let at = 148 * threshold_grammar::own(s.v) as usize;
    let i = 3 * s.set as usize;
    Held {
        sets: t[at],
        threshold: t[at + (1 + i)],
        inner: t[at + (2 + i)],
        plain: t[at + (3 + i)],
    }
}

// One of the numbers.
fn put(t: &mut [u64], at: usize, x: u64)
    requires { at < length t.old }
    ensures { t.new ≡ set t.old at x }
{
    t[at] = x;
}

// Further sites in one of the masks.
fn join(t: &mut [u64], at: usize, q: u64)
    requires { at < length t.old }
    ensures { t.new ≡ set t.old at (bit_or (get_or t.old at 0) q) }
{
    t[at] |= q;
}

// An inner set begins, and counts for the set around it.
fn begin(s: Spot, t: &mut [u64])
    requires t_len { length t.old ≡ 9472 }
    requires threshold_sane { ThresholdSane s }
    requires few { Few (2 ^ 63) t.old }
    ensures { t.new ≡ enacted Deed.Inner s t.old }
{
    let at = 148 * threshold_grammar::own(s.v) as usize;
    let i = at + (2 + 3 * s.around as usize);
    let k = t[i] + 1;
    put(t, at, s.set + 1);
    put(t, i, k);
}

// What a word does to the sets.
fn enact(s: Spot, t: &mut [u64])
    requires t_len { length t.old ≡ 9472 }
    requires threshold_sane { ThresholdSane s }
    requires few { Few (2 ^ 63) t.old }
    ensures { t.new ≡ enacted s.deed s t.old }
{
    let at = 148 * threshold_grammar::own(s.v) as usize;
    let i = at + (1 + 3 * s.set as usize);
    let j = at + (3 + 3 * s.set as usize);
    match s.deed {
        Deed::Nothing => (),
        Deed::Root => put(t, at, 1),
        Deed::Inner => begin(s, t),
        Deed::Least(x) => put(t, i, x),
        Deed::Site(q) => join(t, j, q),
    }
}

// A word is heard.
fn step(s: Spot, k: Token, t: &mut [u64]) -> Spot
    requires t_len { length t.old ≡ 9472 }
    requires threshold_sane { ThresholdSane s }
    requires line_bound { s.line + 1 < 2 ^ 64 }
    requires few { Few (2 ^ 63) t.old }
    ensures { (result ≡ word_after k s t.old) × (t.new ≡ word_leaves k s t.old) }
{
    let h = hold(s, t);
    let r = threshold_nesting::spoken(s, h, k);
    enact(r, t);
    r
}

// A byte is heard: the word that ends there, then the byte itself.
fn hear(c: Sign, w: Begun, s: Spot, t: &mut [u64]) -> Spot
    requires t_len { length t.old ≡ 9472 }
    requires threshold_sane { ThresholdSane s }
    requires line_bound { s.line + 1 < 2 ^ 64 }
    requires few { Few (2 ^ 63) t.old }
    ensures { (result ≡ (threshold_heard_as c w s t.old).0) × (t.new ≡ (threshold_heard_as c w s t.old).1) }
{
    let s = step(s, threshold_words::ended(c, w), t);
    step(s, threshold_words::said(c), t)
}

// The text is walked once; the sets grow in the room of 64 times 148 zeros.
pub fn walk(text: &[u8], t: &mut [u64]) -> Spot
    requires { t.old ≡ replicate 9472 0 }
    ensures { (result ≡ (threshold_text_read text.now (replicate 9472 0)).spot)
        × (t.new ≡ (threshold_text_read text.now (replicate 9472 0)).lines) }
{
    let mut w = Begun::Fresh;
    let mut s = threshold_grammar::outside(1, 0, 0, Phase::Head);
    for b in text {
        let c = threshold_words::sign_of(w, *b);
        s = hear(c, w, s, t);
        w = threshold_words::turn(c, w, *b);
    }
    hear(
        threshold_words::closing(w),
        threshold_words::stopped(w),
        s,
        t,
    )
}
