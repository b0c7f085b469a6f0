// The faulty sites as a person types them: a mask, or the sites' numbers behind an s.
#![tactic(auto)]

ghost use Rattle.std.specs.Prelude.{◌≡◌, ◌<◌, true, false, bit_or, MatchOption, IfSome};
ghost use Rattle.faulty_sites.specs.Faulty.{so_far, digit_after, sites_typed, faulty_typed};
ghost use Rattle.masks.specs.Mask.{has, single};

// The site typed so far, if any, and one digit more: `None` where that is no site.
#[tactic(auto, unfolding(crate::specs::Faulty::digit_after))]
fn digit_after(site: Option<u64>, b: u8) -> Option<u64>
    requires { IfSome site (λ x. x < 64) }
    ensures { MatchOption result (digit_after (so_far site) b ≡ 65) (λ y. (y ≡ digit_after (so_far site) b) × (y < 64)) }
{
    let d = u64::from(char::from(b).to_digit(10)?);
    let y = match site {
        Some(x) => 10 * x + d,
        None => d,
    };
    if y < 64 { Some(y) } else { None }
}

// The sites of m and one site more: `None` if it is one of them.
fn with_site(m: u64, x: u64) -> Option<u64>
    requires { x < 64 }
    ensures { MatchOption result (has m x ≡ true) (λ y. (has m x ≡ false) × (y ≡ bit_or m (single x))) }
{
    if masks::has(m, x) {
        None
    } else {
        Some(m | masks::single(x))
    }
}

// The sites whose numbers stand behind the s.
fn sites_named(word: &[u8]) -> Option<u64>
    ensures { result ≡ sites_typed 0 64 word.now }
{
    let mut m: u64 = 0;
    let mut site: Option<u64> = None;
    for b in word {
        if *b == b',' {
            m = with_site(m, site?)?;
            site = None;
        } else {
            site = Some(digit_after(site, *b)?);
        }
    }
    with_site(m, site?)
}

// The faulty sites that were typed.
pub fn faulty_typed(word: &[u8]) -> Option<u64>
    ensures { result ≡ faulty_typed word.now }
{
    let Some(sites) = word.strip_prefix(b"s") else {
        return text::mask_typed(word);
    };
    if sites.is_empty() {
        return Some(0);
    }
    sites_named(sites)
}
