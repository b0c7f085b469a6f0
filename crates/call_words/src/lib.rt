// A word of a text, and what the words of a line say of a call.
#![tactic(auto)]

ghost use Rattle.std.specs.Prelude.{◌≡◌};
ghost use Rattle.call_words.specs.Grammar.{hear, closed};
ghost use Rattle.call_words.specs.Word.{figure, meant};

// What a word says: a number, a kind of call, a side, or nothing of a call.
#[derive(Clone, Copy)]
pub enum Word {
    Number(u8),
    Kind(u8),
    Side(u8),
    Other,
}

// What is wanted where a line goes wrong: a kind of call or a number, a number, a side, the end of the line; or fewer calls, where its call is one too many.
#[derive(Clone, Copy, PartialEq, Eq)]
pub enum Wanted {
    Kind,
    Number,
    Side,
    End,
    Fewer,
}

// What the words of a line have said so far. The fields are the call's bytes as far as they are known.
#[derive(Clone, Copy)]
pub enum Heard {
    Nothing,
    Kind(u8),
    From(u8, u8),
    Ends(u8, u8, u8),
    One(u8),
    Two(u8, u8),
    Three(u8, u8, u8),
    Whole(u8, u8, u8, u8),
    Wrong(Wanted),
}

// What a line says: nothing, a call, or what was wanted where it is wrong.
#[derive(Clone, Copy)]
pub enum Line {
    Empty,
    Call(u8, u8, u8, u8),
    Fault(Wanted),
}

// The number 0 to 255 that the word is, if it is one.
fn figure(word: &[u8]) -> Option<u8>
    ensures { result ≡ figure 0 word.now }
{
    let mut x: u16 = 0;
    for b in word {
        if !b.is_ascii_digit() {
            return None;
        }
        x = 10 * x + u16::from(*b - b'0');
        if 255 < x {
            return None;
        }
    }
    Some(x as u8)
}

// What a word says, each letter in either case.
pub fn meant(word: &[u8]) -> Word
    ensures { result ≡ meant word.now }
{
    if let Some(n) = figure(word) {
        return Word::Number(n);
    }
    if word.eq_ignore_ascii_case(b"propose") {
        return Word::Kind(0);
    }
    if word.eq_ignore_ascii_case(b"vote") {
        return Word::Kind(1);
    }
    if word.eq_ignore_ascii_case(b"accept") {
        return Word::Kind(2);
    }
    if word.eq_ignore_ascii_case(b"drill") {
        return Word::Side(0);
    }
    if word.eq_ignore_ascii_case(b"live") {
        return Word::Side(1);
    }
    Word::Other
}

// One word more. A proposal names one site, which is both ends of its call.
#[tactic(auto, unfolding(crate::specs::Grammar::hear))]
pub fn hear(s: Heard, w: Word) -> Heard
    ensures { result ≡ hear s w }
{
    match (s, w) {
        (Heard::Nothing, Word::Number(a)) => Heard::One(a),
        (Heard::Nothing, Word::Kind(kind)) => Heard::Kind(kind),
        (Heard::Nothing, _) => Heard::Wrong(Wanted::Kind),
        (Heard::Kind(0), Word::Number(site)) => Heard::Ends(0, site, site),
        (Heard::Kind(kind), Word::Number(from)) => Heard::From(kind, from),
        (Heard::From(kind, from), Word::Number(to)) => Heard::Ends(kind, from, to),
        (Heard::Ends(kind, from, to), Word::Side(side)) => Heard::Whole(kind, from, to, side),
        (Heard::Ends(..), _) => Heard::Wrong(Wanted::Side),
        (Heard::One(a), Word::Number(b)) => Heard::Two(a, b),
        (Heard::Two(a, b), Word::Number(c)) => Heard::Three(a, b, c),
        (Heard::Three(a, b, c), Word::Number(d)) => Heard::Whole(a, b, c, d),
        (Heard::Whole(..), _) => Heard::Wrong(Wanted::End),
        (Heard::Wrong(what), _) => Heard::Wrong(what),
        _ => Heard::Wrong(Wanted::Number),
    }
}

// The end of the line.
#[tactic(auto, unfolding(crate::specs::Grammar::closed))]
pub fn closed(s: Heard) -> Line
    ensures { result ≡ closed s }
{
    match s {
        Heard::Nothing => Line::Empty,
        Heard::Ends(..) => Line::Fault(Wanted::Side),
        Heard::Whole(a, b, c, d) => Line::Call(a, b, c, d),
        Heard::Wrong(what) => Line::Fault(what),
        _ => Line::Fault(Wanted::Number),
    }
}
