// The grammar of a table as text: what is expected, and what each word that is heard there does. The rules are in specs/Grammar.antt.
#![tactic(auto)]

ghost use Rattle.std.specs.Prelude.{Bool, ◌≡◌, ltb, ◌+◌, ◌^◌, ◌≤◌, ◌<◌};
ghost use Rattle.table_grammar.specs.Grammar.{at, own, next_line, expected, missed, onward, first_member, member, many, owner};
ghost use Rattle.table_grammar.specs.Grammar.{numbered, sited, coloned, barred, line_end, spoken, Sane};

use refusals::Refusal;
use table_words::Token;

// Why a text is none: what was expected; or the refusal of a group.
#[derive(Clone, Copy)]
pub enum Why {
    Sites,
    Count,
    LineEnd,
    Owner,
    Nothing,
    Colon,
    Member,
    Further,
    Other,
    Rule(Refusal),
}

// What is expected next: `sites`, the number of sites, the end of the line, a site's line, its colon, the first site of a group, a further one.
#[derive(Clone, Copy)]
pub enum Phase {
    Head,
    Count,
    Tail,
    Owner,
    Mark,
    First,
    More,
    Wrong(Why),
}

// The line, counted from 1, the number of sites, the site lines begun, the group so far, and what is expected next.
#[derive(Clone, Copy)]
pub struct Spot {
    pub line: u64,
    pub n: u64,
    pub v: u64,
    pub q: u64,
    pub phase: Phase,
}

// The same place, with something else expected and no group begun.
pub fn at(s: Spot, p: Phase) -> Spot
    ensures { result ≡ at s p }
{
    Spot {
        q: 0,
        phase: p,
        ..s
    }
}

// The site whose line is read.
pub fn own(v: u64) -> u64
    ensures { result ≡ own v }
{
    v.saturating_sub(1)
}

// What was expected: behind the last site's line nothing more.
pub fn expected(p: Phase, more: bool) -> Why
    ensures { result ≡ expected p more }
{
    match p {
        Phase::Head => Why::Sites,
        Phase::Count => Why::Count,
        Phase::Tail => Why::LineEnd,
        Phase::Owner => next_line(more),
        Phase::Mark => Why::Colon,
        Phase::First => Why::Member,
        Phase::More => Why::Further,
        Phase::Wrong(why) => why,
    }
}

fn next_line(more: bool) -> Why
    ensures { result ≡ next_line more }
{
    if more { Why::Owner } else { Why::Nothing }
}

// What is heard is not what was expected.
#[tactic(auto, unfolding(crate::specs::Grammar::missed))]
fn missed(s: Spot) -> Spot
    ensures { result ≡ missed s }
{
    at(s, Phase::Wrong(expected(s.phase, s.v < s.n)))
}

// The next line.
fn onward(s: Spot, p: Phase) -> Spot
    requires { s.line + 1 < 2 ^ 64 }
    ensures { result ≡ onward s p }
{
    Spot {
        line: s.line + 1,
        q: 0,
        phase: p,
        ..s
    }
}

// The number of sites.
#[tactic(auto, unfolding(crate::specs::Grammar::many))]
fn many(s: Spot, x: u64) -> Spot
    ensures { result ≡ many s x }
{
    if x < 1 || 64 < x {
        return missed(s);
    }
    Spot {
        line: s.line,
        n: x,
        v: 0,
        q: 0,
        phase: Phase::Tail,
    }
}

// The number that begins a site's line.
#[tactic(auto, unfolding(crate::specs::Grammar::owner))]
fn owner(s: Spot, x: u64) -> Spot
    requires { Sane s }
    ensures { result ≡ owner s x }
{
    if s.n <= x || x != s.v {
        return missed(s);
    }
    Spot {
        v: s.v + 1,
        q: 0,
        phase: Phase::Mark,
        ..s
    }
}

// One site more in the group.
#[tactic(auto, unfolding(crate::specs::Grammar::member))]
fn member(s: Spot, x: u64) -> Spot
    requires { Sane s }
    ensures { result ≡ member s x }
{
    if s.n <= x {
        return at(s, Phase::Wrong(Why::Rule(Refusal::Slice(own(s.v)))));
    }
    if masks::has(s.q, x) {
        return at(s, Phase::Wrong(Why::Other));
    }
    Spot {
        q: s.q | masks::single(x),
        phase: Phase::More,
        ..s
    }
}

// The first site of a group.
#[tactic(auto, unfolding(crate::specs::Grammar::first_member))]
fn first_member(s: Spot, full: bool, x: u64) -> Spot
    requires { Sane s }
    ensures { result ≡ first_member s full x }
{
    if full {
        return at(s, Phase::Wrong(Why::Rule(Refusal::Count(own(s.v)))));
    }
    member(s, x)
}

// A number.
fn numbered(s: Spot, full: bool, x: u64) -> Spot
    requires { Sane s }
    ensures { result ≡ numbered s.phase s full x }
{
    match s.phase {
        Phase::Count => many(s, x),
        Phase::Owner => owner(s, x),
        Phase::First => first_member(s, full, x),
        Phase::More => member(s, x),
        _ => missed(s),
    }
}

// The word `sites`.
fn sited(s: Spot) -> Spot
    ensures { result ≡ sited s.phase s }
{
    match s.phase {
        Phase::Head => at(s, Phase::Count),
        _ => missed(s),
    }
}

// A colon.
fn coloned(s: Spot) -> Spot
    ensures { result ≡ coloned s.phase s }
{
    match s.phase {
        Phase::Mark => at(s, Phase::First),
        _ => missed(s),
    }
}

// A bar.
fn barred(s: Spot) -> Spot
    ensures { result ≡ barred s.phase s }
{
    match s.phase {
        Phase::More => at(s, Phase::First),
        _ => missed(s),
    }
}

// The end of a line.
fn line_end(s: Spot) -> Spot
    requires { s.line + 1 < 2 ^ 64 }
    ensures { result ≡ line_end s.phase s }
{
    match s.phase {
        Phase::Head => onward(s, Phase::Head),
        Phase::Tail | Phase::Owner | Phase::More => onward(s, Phase::Owner),
        _ => missed(s),
    }
}

// What a word does where it is heard; full says that the site whose line is read has 62 groups.
pub fn spoken(s: Spot, full: bool, t: Token) -> Spot
    requires sane { Sane s }
    requires line_bound { s.line + 1 < 2 ^ 64 }
    ensures { result ≡ spoken t full s }
{
    match t {
        Token::Silence => s,
        Token::Sites => sited(s),
        Token::Number(x) => numbered(s, full, x),
        Token::Colon => coloned(s),
        Token::Bar => barred(s),
        Token::End => line_end(s),
        Token::Strange => missed(s),
    }
}
