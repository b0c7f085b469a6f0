// From bytes to words: what is in hand after a byte of a text, the word that ends there, and what the byte says itself. The rules are in specs/Words.antt.
// It stands beside table_words, whose words look alike: what is in hand, what a byte is and what is heard have other variants there (a bar, and no bracket
// and no `of`), and a number is kept up to 64 there and up to 255 here, so that one set of words for both would let each text say what only the other may.
#![tactic(auto)]

ghost use Rattle.std.specs.Prelude.{◌≡◌};
ghost use Rattle.threshold_words.specs.Words.{threshold_counts, threshold_spelt, oh, threshold_opens, threshold_word_on, threshold_plain, threshold_or_line};
ghost use Rattle.threshold_words.specs.Words.{threshold_sign_of, threshold_turn, threshold_spelled, threshold_whole, threshold_ended, threshold_said};
ghost use Rattle.threshold_words.specs.Words.{threshold_closing, threshold_stopped};

// What is in hand: the beginning of a line, a gap, a number, so many letters of `sites`, `o`, `of`, a word that is none, the CR of CR LF, a comment.
#[derive(Clone, Copy)]
pub enum Begun {
    Fresh,
    Gap,
    Digits(u64),
    Letters(u64),
    Oh,
    Of,
    Odd,
    Return,
    Comment,
}

// What a byte is: LF, one of a comment, `:`, `(`, `)`, CR, a blank or a tab, a part of a word.
#[derive(Clone, Copy)]
pub enum Sign {
    Line,
    Note,
    Colon,
    Open,
    Close,
    Return,
    Blank,
    Part,
}

// What the grammar hears.
#[derive(Clone, Copy)]
pub enum Token {
    Silence,
    Sites,
    Of,
    Number(u64),
    Colon,
    Open,
    Close,
    End,
    Strange,
}

// One digit more; 256 stands for every number over 255.
#[tactic(auto, unfolding(crate::specs::Words::threshold_counts, crate::specs::Words::threshold_grown))]
fn counts(x: u64, b: u8) -> Begun
    ensures { result ≡ threshold_counts x b }
{
    if b < b'0' || b'9' < b {
        return Begun::Odd;
    }
    if 255 < x {
        return Begun::Digits(256);
    }
    let y = 10 * x + u64::from(b - b'0');
    Begun::Digits(y.min(256))
}

// One letter more of `sites`.
#[tactic(auto, unfolding(crate::specs::Words::threshold_spelt))]
fn spelt(k: u64, b: u8) -> Begun
    ensures { result ≡ threshold_spelt k b }
{
    let word = b"sites";
    if k < 5 && word[k as usize] == b {
        Begun::Letters(k + 1)
    } else {
        Begun::Odd
    }
}

// The second letter of `of`.
#[tactic(auto, unfolding(crate::specs::Words::oh))]
fn oh(b: u8) -> Begun
    ensures { result ≡ oh b }
{
    if b == b'f' { Begun::Of } else { Begun::Odd }
}

// The first byte of a word.
#[tactic(auto, unfolding(crate::specs::Words::threshold_opens))]
fn opens(b: u8) -> Begun
    ensures { result ≡ threshold_opens b }
{
    if b <= b'9' {
        counts(0, b)
    } else if b == b'o' {
        Begun::Oh
    } else {
        spelt(0, b)
    }
}

// A byte that is a part of a word.
fn word_on(w: Begun, b: u8) -> Begun
    ensures { result ≡ threshold_word_on w b }
{
    match w {
        Begun::Fresh | Begun::Gap => opens(b),
        Begun::Digits(x) => counts(x, b),
        Begun::Letters(k) => spelt(k, b),
        Begun::Oh => oh(b),
        Begun::Of | Begun::Odd | Begun::Return => Begun::Odd,
        Begun::Comment => Begun::Comment,
    }
}

// What a byte is outside comments.
#[tactic(auto, unfolding(crate::specs::Words::threshold_plain))]
fn plain(b: u8) -> Sign
    ensures { result ≡ threshold_plain b }
{
    match b {
        b'\n' => Sign::Line,
        b'#' => Sign::Note,
        b':' => Sign::Colon,
        b'(' => Sign::Open,
        b')' => Sign::Close,
        b'\r' => Sign::Return,
        b' ' | b'\t' => Sign::Blank,
        _ => Sign::Part,
    }
}

// LF, or else something that every other byte is.
#[tactic(auto, unfolding(crate::specs::Words::threshold_or_line))]
fn or_line(b: u8, other: Sign) -> Sign
    ensures { result ≡ threshold_or_line b other }
{
    if b == b'\n' { Sign::Line } else { other }
}

// What a byte is where a word is in hand.
pub fn sign_of(w: Begun, b: u8) -> Sign
    ensures { result ≡ threshold_sign_of w b }
{
    match w {
        Begun::Return => or_line(b, Sign::Part),
        Begun::Comment => or_line(b, Sign::Note),
        _ => plain(b),
    }
}

// What is in hand after the byte.
pub fn turn(c: Sign, w: Begun, b: u8) -> Begun
    ensures { result ≡ threshold_turn c w b }
{
    match c {
        Sign::Line => Begun::Fresh,
        Sign::Note => Begun::Comment,
        Sign::Colon | Sign::Open | Sign::Close | Sign::Blank => Begun::Gap,
        Sign::Return => Begun::Return,
        Sign::Part => word_on(w, b),
    }
}

// `sites` is whole after five letters.
#[tactic(auto, unfolding(crate::specs::Words::threshold_spelled))]
fn spelled(k: u64) -> Token
    ensures { result ≡ threshold_spelled k }
{
    if k == 5 { Token::Sites } else { Token::Strange }
}

// A word that is complete.
fn whole(w: Begun) -> Token
    ensures { result ≡ threshold_whole w }
{
    match w {
        Begun::Digits(x) => Token::Number(x),
        Begun::Letters(k) => spelled(k),
        Begun::Of => Token::Of,
        Begun::Oh | Begun::Odd => Token::Strange,
        _ => Token::Silence,
    }
}

// The word that ends at the byte.
pub fn ended(c: Sign, w: Begun) -> Token
    ensures { result ≡ threshold_ended c w }
{
    match c {
        Sign::Part => Token::Silence,
        _ => whole(w),
    }
}

// What the byte says itself.
pub fn said(c: Sign) -> Token
    ensures { result ≡ threshold_said c }
{
    match c {
        Sign::Line => Token::End,
        Sign::Colon => Token::Colon,
        Sign::Open => Token::Open,
        Sign::Close => Token::Close,
        _ => Token::Silence,
    }
}

// How the end of the text is heard: as LF, or not at all where a line has just begun.
pub fn closing(w: Begun) -> Sign
    ensures { result ≡ threshold_closing w }
{
    match w {
        Begun::Fresh => Sign::Note,
        _ => Sign::Line,
    }
}

// What is in hand at the end of the text: a CR without LF is a word that is none.
pub fn stopped(w: Begun) -> Begun
    ensures { result ≡ threshold_stopped w }
{
    match w {
        Begun::Return => Begun::Odd,
        _ => w,
    }
}
