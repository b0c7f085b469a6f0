// What a word does where a set is open. The rules are in specs/Nesting.antt.
#![tactic(auto)]

ghost use Rattle.std.specs.Prelude.{◌≡◌, ◌+◌, ◌^◌, ◌≤◌, ◌<◌};
ghost use Rattle.threshold_grammar.specs.Grammar.{ThresholdSane};
ghost use Rattle.threshold_nesting.specs.Nesting.{unreached, threshold_member, set_opened, set_closed, set_completed, threshold_numbered, bracket_opens};
ghost use Rattle.threshold_nesting.specs.Nesting.{bracket_closes, threshold_line_end, threshold_spoken};

use refusals::Refusal;
use threshold_grammar::{Deed, Phase, Spot, Why};
use threshold_words::Token;

// How many sets the line has so far, and of the innermost its threshold, the number of its inner sets and the mask of its sites.
#[derive(Clone, Copy)]
pub struct Held {
    pub sets: u64,
    pub threshold: u64,
    pub inner: u64,
    pub plain: u64,
}

// A threshold of zero, or above its sites and inner sets together.
#[tactic(auto, unfolding(crate::specs::Nesting::unreached))]
fn unreached(h: Held) -> bool
    requires { h.inner < 2 ^ 63 }
    ensures { result ≡ unreached h }
{
    h.threshold == 0 || u64::from(masks::size(h.plain)) + h.inner < h.threshold
}

// One site more in the innermost set.
#[tactic(auto, unfolding(crate::specs::Nesting::threshold_member))]
fn member(s: Spot, h: Held, x: u64) -> Spot
    requires { ThresholdSane s }
    ensures { result ≡ threshold_member s h x }
{
    if s.n <= x {
        return threshold_grammar::at(
            s,
            Phase::Wrong(Why::Rule(Refusal::Slice(threshold_grammar::own(s.v)))),
        );
    }
    if masks::has(h.plain, x) {
        return threshold_grammar::at(s, Phase::Wrong(Why::Other));
    }
    threshold_grammar::doing(s, Deed::Site(masks::single(x)), Phase::Members)
}

// An inner set begins.
#[tactic(auto, unfolding(crate::specs::Nesting::set_opened))]
fn opened(s: Spot, h: Held) -> Spot
    ensures { result ≡ set_opened s h }
{
    if 48 < h.sets {
        return threshold_grammar::at(
            s,
            Phase::Wrong(Why::Rule(Refusal::Count(threshold_grammar::own(s.v)))),
        );
    }
    if 3 < s.depth {
        return threshold_grammar::at(
            s,
            Phase::Wrong(Why::Rule(Refusal::Nesting(threshold_grammar::own(s.v)))),
        );
    }
    Spot {
        depth: s.depth + 1,
        set: h.sets,
        around: s.set,
        beyond: s.around,
        deed: Deed::Inner,
        phase: Phase::Threshold,
        ..s
    }
}

// The innermost set is complete at its bracket.
#[tactic(auto, unfolding(crate::specs::Nesting::set_closed))]
fn closed(s: Spot, h: Held) -> Spot
    requires { h.inner < 2 ^ 63 }
    ensures { result ≡ set_closed s h }
{
    if s.depth <= 1 {
        return threshold_grammar::missed(s);
    }
    if unreached(h) {
        return threshold_grammar::at(
            s,
            Phase::Wrong(Why::Rule(Refusal::Threshold(threshold_grammar::own(s.v)))),
        );
    }
    Spot {
        depth: s.depth - 1,
        set: s.around,
        around: s.beyond,
        beyond: 0,
        deed: Deed::Nothing,
        phase: Phase::Members,
        ..s
    }
}

// The root is complete at the end of the line.
#[tactic(auto, unfolding(crate::specs::Nesting::set_completed))]
fn completed(s: Spot, h: Held) -> Spot
    requires line_bound { s.line + 1 < 2 ^ 64 }
    requires inner_bound { h.inner < 2 ^ 63 }
    ensures { result ≡ set_completed s h }
{
    if 1 < s.depth {
        return threshold_grammar::missed(s);
    }
    if unreached(h) {
        return threshold_grammar::at(
            s,
            Phase::Wrong(Why::Rule(Refusal::Threshold(threshold_grammar::own(s.v)))),
        );
    }
    threshold_grammar::onward(s, Phase::Owner)
}

// A number.
fn numbered(s: Spot, h: Held, x: u64) -> Spot
    requires { ThresholdSane s }
    ensures { result ≡ threshold_numbered s.phase s h x }
{
    match s.phase {
        Phase::Count => threshold_grammar::many(s, x),
        Phase::Owner => threshold_grammar::owner(s, x),
        Phase::Threshold => threshold_grammar::doing(s, Deed::Least(x), Phase::Of),
        Phase::Members => member(s, h, x),
        _ => threshold_grammar::missed(s),
    }
}

// An opening bracket.
fn opening(s: Spot, h: Held) -> Spot
    ensures { result ≡ bracket_opens s.phase s h }
{
    match s.phase {
        Phase::Members => opened(s, h),
        _ => threshold_grammar::missed(s),
    }
}

// A closing bracket.
fn closing(s: Spot, h: Held) -> Spot
    requires { h.inner < 2 ^ 63 }
    ensures { result ≡ bracket_closes s.phase s h }
{
    match s.phase {
        Phase::Members => closed(s, h),
        _ => threshold_grammar::missed(s),
    }
}

// The end of a line.
fn line_end(s: Spot, h: Held) -> Spot
    requires line_bound { s.line + 1 < 2 ^ 64 }
    requires inner_bound { h.inner < 2 ^ 63 }
    ensures { result ≡ threshold_line_end s.phase s h }
{
    match s.phase {
        Phase::Head => threshold_grammar::onward(s, Phase::Head),
        Phase::Tail | Phase::Owner => threshold_grammar::onward(s, Phase::Owner),
        Phase::Members => completed(s, h),
        _ => threshold_grammar::missed(s),
    }
}

// What a word does where it is heard; h is the innermost set of the line that is read, and how many sets the line has so far.
pub fn spoken(s: Spot, h: Held, t: Token) -> Spot
    requires threshold_sane { ThresholdSane s }
    requires line_bound { s.line + 1 < 2 ^ 64 }
    requires inner_bound { h.inner < 2 ^ 63 }
    ensures { result ≡ threshold_spoken t h s }
{
    match t {
        Token::Silence => threshold_grammar::at(s, s.phase),
        Token::Sites => threshold_grammar::sited(s),
        Token::Of => threshold_grammar::linked(s),
        Token::Number(x) => numbered(s, h, x),
        Token::Colon => threshold_grammar::coloned(s),
        Token::Open => opening(s, h),
        Token::Close => closing(s, h),
        Token::End => line_end(s, h),
        Token::Strange => threshold_grammar::missed(s),
    }
}
