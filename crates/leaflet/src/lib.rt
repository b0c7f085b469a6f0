// What each refusal means, in the words of the owners' leaflet.
#![tactic(auto)]

ghost use Rattle.std.specs.Prelude.{◌≡◌, ◌+◌, ◌≤◌, length};
ghost use Rattle.text.specs.Text.{ascii};
ghost use Rattle.text.specs.Written.{Writes};
ghost use Rattle.leaflet.specs.Leaflet.{meaning};

use refusals::Refusal;

// What a refusal means.
fn meaning(r: Refusal) -> &'static [u8]
    ensures { result.now ≡ ascii (meaning r) }
{
    match r {
        Refusal::Length =>
            b"The table does not have a right length. A file must be 1 to 64 blocks of 512 bytes; \
            a table in memory 63 numbers for each of 1 to 64 sites; a single block 512 bytes.",
        Refusal::Sums(_) =>
            b"The block's check does not fit its bytes: the block was damaged, or changed without working out the check anew.",
        Refusal::Header(_) =>
            b"The head of the block is wrong: its site number is not its place in the file, its number of sites is not the number of blocks, \
            or bytes 6 and 7 are not zero.",
        Refusal::Count(_) =>
            b"The site has no group at all, or more than 62. In a table of thresholds: no set at all, or more than 49.",
        Refusal::Slice(_) =>
            b"A group of this site does not contain the site itself, or names a site that does not exist. \
            In a table of thresholds: a set names such a site.",
        Refusal::Order(_) =>
            b"A group does not stand after the one before it: the groups must ascend as numbers, and no group may stand twice.",
        Refusal::NoQuorum => b"The table holds no quorum.",
        Refusal::Filler(_) =>
            b"Behind the last group of the site something is not zero. In a table of thresholds: behind the last set. \
            In a journal: behind the last call of the block.",
        Refusal::Room => b"The room handed over for the answer is too small.",
        Refusal::Set => b"A set of sites names a site that the table does not have.",
        Refusal::Range(_) =>
            b"A call names a site that does not exist, a kind above 2, or a side above 1. For a mark: a site above 63.",
        Refusal::Receiver =>
            b"The call is for a site that is listed as faulty. Faulty sites keep no state.",
        Refusal::Proposal =>
            b"A proposal names two different sites. A site is proposed to by itself: from and to must be the same.",
        Refusal::Voted =>
            b"The site has already voted for the other side in this window. The first proposal counts.",
        Refusal::Unsent =>
            b"A vote or an accept is reported from a correct site that has not cast it.",
        Refusal::Large =>
            b"The verdict on shared or intact sites is given for at most 12 sites, and this table has more.",
        Refusal::List =>
            b"The list of calls is not whole (four bytes a call), or has more than 4,096 calls.",
        Refusal::Unsound =>
            b"The state handed over is not one that the rules explain: it has the wrong length, or something in it does not follow from what the sites heard.",
        Refusal::Journal =>
            b"The journal does not have a right length. A journal is whole blocks of 512 bytes, and at most 33 of them.",
        Refusal::Numbering(_) =>
            b"The block of the journal has a wrong number or a wrong count of calls. The number is the block's place in the file; \
            each block but the last has 125 calls, the last 1 to 125.",
        Refusal::Threshold(_) =>
            b"A set asks for none of its members, or for more of them than it has: its sites and the sets in it count one each.",
        Refusal::Nesting(_) =>
            b"The sets do not fit into each other: one stands behind the end of the first set or deeper than four levels, \
            or a set lacks sets that it announces.",
        Refusal::Slices(_) =>
            b"The thresholds of this site come to more than 62 smallest groups, so that they cannot be written as a list of groups.",
    }
}

// Writes what a refusal means.
pub fn put_meaning(room: &mut [u8], at: usize, r: Refusal) -> usize
    requires { at + 200 ≤ length room.old }
    ensures { Writes (ascii (meaning r)) room.old at result room.new }
{
    text::put(room, at, meaning(r))
}
