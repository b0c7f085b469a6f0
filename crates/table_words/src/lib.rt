// From bytes to words: what is in hand after a byte of a text, the word that ends there, and what the byte says itself. The rules are in specs/Words.antt.
#![tactic(auto)]

ghost use Rattle.std.specs.Prelude.{◌≡◌};
ghost use Rattle.table_words.specs.Words.{counts, spelt, opens, word_on, plain, or_line, sign_of, turn, spelled, whole, ended, said, closing, stopped};

// What is in hand: the beginning of a line, a gap, a number, so many letters of `sites`, a word that is none, the CR of CR LF, a comment.
#[derive(Clone, Copy)]
pub enum Begun {
    Fresh,
    Gap,
    Digits(u64),
    Letters(u64),
    Odd,
    Return,
    Comment,
}

// What a byte is: LF, one of a comment, `:`, `|`, CR, a blank or a tab, a part of a word.
#[derive(Clone, Copy)]
pub enum Sign {
    Line,
    Note,
    Colon,
    Bar,
    Return,
    Blank,
    Part,
}

// What the grammar hears.
#[derive(Clone, Copy)]
pub enum Token {
    Silence,
    Sites,
    Number(u64),
    Colon,
    Bar,
    End,
    Strange,
}

// One digit more; 65 stands for every number over 64.
#[tactic(auto, unfolding(crate::specs::Words::counts, crate::specs::Words::grown))]
fn counts(x: u64, b: u8) -> Begun
    ensures { result ≡ counts x b }
{
    if b < b'0' || b'9' < b {
        return Begun::Odd;
    }
    if 64 < x {
        return Begun::Digits(65);
    }
    let y = 10 * x + u64::from(b - b'0');
    Begun::Digits(y.min(65))
}

// One letter more of `sites`.
#[tactic(auto, unfolding(crate::specs::Words::spelt))]
fn spelt(k: u64, b: u8) -> Begun
    ensures { result ≡ spelt k b }
{
    let word = b"sites";
    if k < 5 && word[k as usize] == b {
        Begun::Letters(k + 1)
    } else {
        Begun::Odd
    }
}

// The first byte of a word.
#[tactic(auto, unfolding(crate::specs::Words::opens))]
fn opens(b: u8) -> Begun
    ensures { result ≡ opens b }
{
    if b <= b'9' { counts(0, b) } else { spelt(0, b) }
}

// A byte that is a part of a word.
fn word_on(w: Begun, b: u8) -> Begun
    ensures { result ≡ word_on w b }
{
    match w {
        Begun::Fresh | Begun::Gap => opens(b),
        Begun::Digits(x) => counts(x, b),
        Begun::Letters(k) => spelt(k, b),
        Begun::Odd | Begun::Return => Begun::Odd,
        Begun::Comment => Begun::Comment,
    }
}

// What a byte is outside comments.
#[tactic(auto, unfolding(crate::specs::Words::plain))]
fn plain(b: u8) -> Sign
    ensures { result ≡ plain b }
{
    match b {
        b'\n' => Sign::Line,
        b'#' => Sign::Note,
        b':' => Sign::Colon,
        b'|' => Sign::Bar,
        b'\r' => Sign::Return,
        b' ' | b'\t' => Sign::Blank,
        _ => Sign::Part,
    }
}

// LF, or else something that every other byte is.
#[tactic(auto, unfolding(crate::specs::Words::or_line))]
fn or_line(b: u8, other: Sign) -> Sign
    ensures { result ≡ or_line b other }
{
    if b == b'\n' { Sign::Line } else { other }
}

// What a byte is where a word is in hand.
pub fn sign_of(w: Begun, b: u8) -> Sign
    ensures { result ≡ sign_of w b }
{
    match w {
        Begun::Return => or_line(b, Sign::Part),
        Begun::Comment => or_line(b, Sign::Note),
        _ => plain(b),
    }
}

// What is in hand after the byte.
pub fn turn(c: Sign, w: Begun, b: u8) -> Begun
    ensures { result ≡ turn c w b }
{
    match c {
        Sign::Line => Begun::Fresh,
        Sign::Note => Begun::Comment,
        Sign::Colon | Sign::Bar | Sign::Blank => Begun::Gap,
        Sign::Return => Begun::Return,
        Sign::Part => word_on(w, b),
    }
}

// `sites` is whole after five letters.
#[tactic(auto, unfolding(crate::specs::Words::spelled))]
fn spelled(k: u64) -> Token
    ensures { result ≡ spelled k }
{
    if k == 5 { Token::Sites } else { Token::Strange }
}

// A word that is complete.
fn whole(w: Begun) -> Token
    ensures { result ≡ whole w }
{
    match w {
        Begun::Digits(x) => Token::Number(x),
        Begun::Letters(k) => spelled(k),
        Begun::Odd => Token::Strange,
        _ => Token::Silence,
    }
}

// The word that ends at the byte.
pub fn ended(c: Sign, w: Begun) -> Token
    ensures { result ≡ ended c w }
{
    match c {
        Sign::Part => Token::Silence,
        _ => whole(w),
    }
}

// What the byte says itself.
pub fn said(c: Sign) -> Token
    ensures { result ≡ said c }
{
    match c {
        Sign::Line => Token::End,
        Sign::Colon => Token::Colon,
        Sign::Bar => Token::Bar,
        _ => Token::Silence,
    }
}

// How the end of the text is heard: as LF, or not at all where a line has just begun.
pub fn closing(w: Begun) -> Sign
    ensures { result ≡ closing w }
{
    match w {
        Begun::Fresh => Sign::Note,
        _ => Sign::Line,
    }
}

// What is in hand at the end of the text: a CR without LF is a word that is none.
pub fn stopped(w: Begun) -> Begun
    ensures { result ≡ stopped w }
{
    match w {
        Begun::Return => Begun::Odd,
        _ => w,
    }
}
