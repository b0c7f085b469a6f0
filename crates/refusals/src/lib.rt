// The one list of refusals: a case for each number of the rules, holding the block or site for the numbers that carry one.
#![tactic(auto)]

ghost use Rattle.std.specs.Prelude.{◌≡◌};
ghost use Rattle.refusals.specs.Refusal.{number, place, code};

#[derive(Clone, Copy)]
pub enum Refusal {
    // An image, a table in memory or a lone block of a wrong length.
    Length,
    // A block's check differs.
    Sums(u64),
    // Site is not the block's place, n is not the number of blocks, or bytes 6 to 7 are not zero.
    Header(u64),
    // A slice count of 0 or over 62.
    Count(u64),
    // A slice lacks its owner or names a site at or above n.
    Slice(u64),
    // A slice is not above the one before.
    Order(u64),
    // The table holds no quorum.
    NoQuorum,
    // Filler or an unused place is not zero.
    Filler(u64),
    // Room lent too short.
    Room,
    // A set names a site at or above n.
    Set,
    // Site at or above n (mark: above 63), kind over 2, side over 1. In a call and in a question it carries 0.
    Range(u64),
    // The receiver is faulty.
    Receiver,
    // A proposal whose from and to differ.
    Proposal,
    // The site has voted for the other side.
    Voted,
    // A correct sender has not sent this.
    Unsent,
    // n over 12 where a verdict needs at most 12.
    Large,
    // A list that is not a multiple of 4 bytes or has over 4,096 calls.
    List,
    // The state run is unsound.
    Unsound,
    // A journal that is not a multiple of 512 bytes or has over 16,896.
    Journal,
    // A journal's block whose number is not its place, or whose count of calls is none that may stand there.
    Numbering(u64),
    // A set's threshold is zero or above its plain sites and inner sets.
    Threshold(u64),
    // A set behind the root or past four levels, or inner sets that are owed at the end.
    Nesting(u64),
    // A site that has more than 62 smallest slices.
    Slices(u64),
}

// The number that the owners' leaflet has for a refusal.
pub fn number(r: Refusal) -> u64
    ensures { result ≡ number r }
{
    match r {
        Refusal::Length => 1,
        Refusal::Sums(_) => 2,
        Refusal::Header(_) => 3,
        Refusal::Count(_) => 4,
        Refusal::Slice(_) => 5,
        Refusal::Order(_) => 6,
        Refusal::NoQuorum => 7,
        Refusal::Filler(_) => 8,
        Refusal::Room => 9,
        Refusal::Set => 10,
        Refusal::Range(_) => 11,
        Refusal::Receiver => 12,
        Refusal::Proposal => 13,
        Refusal::Voted => 14,
        Refusal::Unsent => 15,
        Refusal::Large => 16,
        Refusal::List => 17,
        Refusal::Unsound => 18,
        Refusal::Journal => 19,
        Refusal::Numbering(_) => 20,
        Refusal::Threshold(_) => 21,
        Refusal::Nesting(_) => 22,
        Refusal::Slices(_) => 23,
    }
}

// The block or site that a refusal carries, 0 where it carries none.
pub fn place(r: Refusal) -> u64
    ensures { result ≡ place r }
{
    match r {
        Refusal::Length => 0,
        Refusal::Sums(block) => block,
        Refusal::Header(block) => block,
        Refusal::Count(site) => site,
        Refusal::Slice(site) => site,
        Refusal::Order(site) => site,
        Refusal::NoQuorum => 0,
        Refusal::Filler(site) => site,
        Refusal::Room => 0,
        Refusal::Set => 0,
        Refusal::Range(i) => i,
        Refusal::Receiver => 0,
        Refusal::Proposal => 0,
        Refusal::Voted => 0,
        Refusal::Unsent => 0,
        Refusal::Large => 0,
        Refusal::List => 0,
        Refusal::Unsound => 0,
        Refusal::Journal => 0,
        Refusal::Numbering(block) => block,
        Refusal::Threshold(block) => block,
        Refusal::Nesting(block) => block,
        Refusal::Slices(site) => site,
    }
}

// The byte of a check's answer: 0, or the refusal's number.
pub fn code(c: Result<(), Refusal>) -> u8
    ensures { result ≡ code c }
{
    match c {
        Ok(()) => 0,
        Err(r) => number(r) as u8,
    }
}
