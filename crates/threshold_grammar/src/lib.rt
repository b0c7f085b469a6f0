// The grammar of a table of thresholds as text: what is expected, and what a word does there that needs no set. The rules are in specs/Grammar.antt.
#![tactic(auto)]

ghost use Rattle.std.specs.Prelude.{◌≡◌, ◌+◌, ◌^◌, ◌≤◌, ◌<◌};
ghost use Rattle.threshold_grammar.specs.Grammar.{ThresholdSane, doing, spot_at, outside, threshold_own, threshold_next_line, next_member};
ghost use Rattle.threshold_grammar.specs.Grammar.{threshold_expected, threshold_missed, threshold_onward, threshold_many, threshold_owner};
ghost use Rattle.threshold_grammar.specs.Grammar.{threshold_sited, linked, threshold_coloned};

use refusals::Refusal;

// Why a text is none: what was expected; or the refusal of a set.
#[derive(Clone, Copy)]
pub enum Why {
    Sites,
    Count,
    LineEnd,
    Owner,
    Nothing,
    Colon,
    Threshold,
    Of,
    Member,
    Bracket,
    Other,
    Rule(Refusal),
}

// What is expected next: `sites`, the number of sites, the end of the line, a site's line, its colon, a set's threshold, its `of`, a member.
#[derive(Clone, Copy)]
pub enum Phase {
    Head,
    Count,
    Tail,
    Owner,
    Mark,
    Threshold,
    Of,
    Members,
    Wrong(Why),
}

// What a word does to the sets of the line: nothing; the root begins, an inner set begins; the innermost gets its threshold, the sites of a mask.
#[derive(Clone, Copy)]
pub enum Deed {
    Nothing,
    Root,
    Inner,
    Least(u64),
    Site(u64),
}

// The line, counted from 1, the number of sites, the site lines begun; how many sets are open, the place of the innermost, of the one around it and of the
// one around that; what the last word did to the sets, and what is expected next.
#[derive(Clone, Copy)]
pub struct Spot {
    pub line: u64,
    pub n: u64,
    pub v: u64,
    pub depth: u64,
    pub set: u64,
    pub around: u64,
    pub beyond: u64,
    pub deed: Deed,
    pub phase: Phase,
}

// The same place, with something done to the sets and something else expected.
pub fn doing(s: Spot, d: Deed, p: Phase) -> Spot
    ensures { result ≡ doing s d p }
{
    Spot {
        deed: d,
        phase: p,
        ..s
    }
}

// The same place, with something else expected.
pub fn at(s: Spot, p: Phase) -> Spot
    ensures { result ≡ spot_at s p }
{
    doing(s, Deed::Nothing, p)
}

// Where no set is open but the root of a line that begins or is to begin.
pub fn outside(line: u64, n: u64, v: u64, p: Phase) -> Spot
    ensures { result ≡ outside line n v p }
{
    Spot {
        line,
        n,
        v,
        depth: 1,
        set: 0,
        around: 0,
        beyond: 0,
        deed: Deed::Nothing,
        phase: p,
    }
}

// The site whose line is read.
pub fn own(v: u64) -> u64
    ensures { result ≡ threshold_own v }
{
    v.saturating_sub(1)
}

fn next_line(more: bool) -> Why
    ensures { result ≡ threshold_next_line more }
{
    if more { Why::Owner } else { Why::Nothing }
}

fn next_member(inner: bool) -> Why
    ensures { result ≡ next_member inner }
{
    if inner { Why::Bracket } else { Why::Member }
}

// What was expected: behind the last site's line nothing more; a closing bracket only where one is open.
pub fn expected(p: Phase, more: bool, inner: bool) -> Why
    ensures { result ≡ threshold_expected p more inner }
{
    match p {
        Phase::Head => Why::Sites,
        Phase::Count => Why::Count,
        Phase::Tail => Why::LineEnd,
        Phase::Owner => next_line(more),
        Phase::Mark => Why::Colon,
        Phase::Threshold => Why::Threshold,
        Phase::Of => Why::Of,
        Phase::Members => next_member(inner),
        Phase::Wrong(why) => why,
    }
}

// What is heard is not what was expected.
#[tactic(auto, unfolding(crate::specs::Grammar::threshold_missed))]
pub fn missed(s: Spot) -> Spot
    ensures { result ≡ threshold_missed s }
{
    at(s, Phase::Wrong(expected(s.phase, s.v < s.n, 1 < s.depth)))
}

// The next line.
pub fn onward(s: Spot, p: Phase) -> Spot
    requires { s.line + 1 < 2 ^ 64 }
    ensures { result ≡ threshold_onward s p }
{
    outside(s.line + 1, s.n, s.v, p)
}

// The number of sites.
#[tactic(auto, unfolding(crate::specs::Grammar::threshold_many))]
pub fn many(s: Spot, x: u64) -> Spot
    ensures { result ≡ threshold_many s x }
{
    if x < 1 || 64 < x {
        return missed(s);
    }
    outside(s.line, x, 0, Phase::Tail)
}

// The number that begins a site's line.
#[tactic(auto, unfolding(crate::specs::Grammar::threshold_owner))]
pub fn owner(s: Spot, x: u64) -> Spot
    requires { ThresholdSane s }
    ensures { result ≡ threshold_owner s x }
{
    if s.n <= x || x != s.v {
        return missed(s);
    }
    outside(s.line, s.n, s.v + 1, Phase::Mark)
}

// The word `sites`.
pub fn sited(s: Spot) -> Spot
    ensures { result ≡ threshold_sited s.phase s }
{
    match s.phase {
        Phase::Head => at(s, Phase::Count),
        _ => missed(s),
    }
}

// The word `of`.
pub fn linked(s: Spot) -> Spot
    ensures { result ≡ linked s.phase s }
{
    match s.phase {
        Phase::Of => at(s, Phase::Members),
        _ => missed(s),
    }
}

// A colon.
pub fn coloned(s: Spot) -> Spot
    ensures { result ≡ threshold_coloned s.phase s }
{
    match s.phase {
        Phase::Mark => doing(s, Deed::Root, Phase::Threshold),
        _ => missed(s),
    }
}
