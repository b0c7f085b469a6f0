// The reading of a text: byte after byte, group after group into 64 times 63 numbers. The rules are in specs/Groups.antt and specs/Reading.antt.
#![tactic(auto)]

ghost use Rattle.std.specs.Prelude.{◌≡◌, ◌+◌, ◌^◌, ◌≤◌, ◌<◌, length};
ghost use Rattle.table_grammar.specs.Grammar.{Sane};
ghost use Rattle.table_reading.specs.Groups.{group_check, completes, closes, spot_after, table_after, judged, kept};
ghost use Rattle.table_reading.specs.Reading.{here, heard_as, finished, text_read};

use refusals::Refusal;
use table_grammar::{Phase, Spot, Why};
use table_words::{Begun, Sign, Token};

// A group q of site v, whose 63 numbers are m: 4, 5, 6.
fn group_check(v: u64, q: u64, m: &[u64]) -> Result<(), Refusal>
    requires m_len { length m.now ≡ 63 }
    requires v_bound { v < 64 }
    ensures { result ≡ group_check v q m.now }
{
    if 61 < m[0] {
        return Err(Refusal::Count(v));
    }
    if !masks::has(q, v) {
        return Err(Refusal::Slice(v));
    }
    if group_order::known(q, m) {
        return Err(Refusal::Order(v));
    }
    Ok(())
}

// A bar and the end of the line complete a group.
fn completes(k: Token) -> bool
    ensures { result ≡ completes k }
{
    matches!(k, Token::Bar | Token::End)
}

// A group is complete.
fn closes(p: Phase, k: Token) -> bool
    ensures { result ≡ closes p k }
{
    matches!(p, Phase::More) && completes(k)
}

// A complete group goes into the table, or is refused.
fn take_group(s: Spot, t: &mut [u64]) -> Spot
    requires t_len { length t.old ≡ 4032 }
    requires sane { Sane s }
    ensures { (result ≡ spot_after s t.old) × (t.new ≡ table_after s t.old) }
{
    let u = table_grammar::own(s.v);
    let q = s.q;
    let a = 63 * u as usize;
    let e = a + 63;
    let p = group_check(u, q, &t[a..e]);
    let Err(r) = p else {
        group_order::join(&mut t[a..e], q);
        return s;
    };
    table_grammar::at(s, Phase::Wrong(Why::Rule(r)))
}

// Where a group is complete.
#[tactic(auto, unfolding(crate::specs::Groups::judged, crate::specs::Groups::kept))]
fn settle(s: Spot, k: Token, t: &mut [u64]) -> Spot
    requires t_len { length t.old ≡ 4032 }
    requires sane { Sane s }
    ensures { (result ≡ judged s k t.old) × (t.new ≡ kept s k t.old) }
{
    if closes(s.phase, k) {
        take_group(s, t)
    } else {
        s
    }
}

// A byte is heard: the word that ends there, then the byte itself.
fn hear(c: Sign, w: Begun, s: Spot, t: &mut [u64]) -> Spot
    requires t_len { length t.old ≡ 4032 }
    requires sane { Sane s }
    requires line_bound { s.line + 1 < 2 ^ 64 }
    ensures { (result ≡ (heard_as c w s t.old).0) × (t.new ≡ (heard_as c w s t.old).1) }
{
    let u = table_grammar::own(s.v);
    let full = 61 < t[63 * u as usize];
    let s = table_grammar::spoken(s, full, table_words::ended(c, w));
    let k = table_words::said(c);
    let s = settle(s, k, t);
    table_grammar::spoken(s, full, k)
}

// The text is walked once; the table grows in the room of 64 times 63 numbers.
pub fn walk(text: &[u8], t: &mut [u64]) -> Spot
    requires { length t.old ≡ 4032 }
    ensures { (result ≡ (text_read text.now t.old).spot) × (t.new ≡ (text_read text.now t.old).table) }
{
    let mut w = Begun::Fresh;
    let mut s = Spot {
        line: 1,
        n: 0,
        v: 0,
        q: 0,
        phase: Phase::Head,
    };
    for b in text {
        let c = table_words::sign_of(w, *b);
        s = hear(c, w, s, t);
        w = table_words::turn(c, w, *b);
    }
    hear(table_words::closing(w), table_words::stopped(w), s, t)
}
