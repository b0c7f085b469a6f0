// What the desk prints of a journal, as bytes in a lent room: its check, and what is said of a list that is kept.
#![tactic(auto)]

ghost use Rattle.std.specs.Prelude.{◌≡◌, ◌≤◌, length};
ghost use Rattle.io.specs.Counts.{IsPrefixLen};
ghost use Rattle.journal_write.specs.Keep.{keep};
ghost use Rattle.text.specs.Written.{Writes};
ghost use Rattle.journal_text.specs.JournalText.{kept_lines, journal_text, kept_text};

use check_text::ROOM;
use refusals::Refusal;

// `blocks K` and `calls N`
fn put_counts(room: &mut [u8], blocks: u64, calls: u64) -> usize
    requires { 196608 ≤ length room.old }
    ensures { Writes (kept_lines blocks calls) room.old 0 result room.new }
{
    let at = lines::line_decimal(room, 0, b"blocks ", blocks);
    lines::line_decimal(room, at, b"calls ", calls)
}

// The check of a journal: how many blocks and calls it has, or the refusal and what it means. Answers the length of the text, as do the others.
pub fn check(journal: &[u8], room: &mut [u8; ROOM]) -> usize
    ensures text { Writes (journal_text journal.now) room.old 0 result room.new }
    ensures counts { IsPrefixLen result room.new }
{
    match journal::check(journal) {
        Ok(size) => put_counts(room, size.blocks, size.calls),
        Err(r) => refusal_lines::put_explained(room, 0, r),
    }
}

// What is said of a list that the writer was asked to keep, by the writer's answer.
pub fn kept(list: &[u8], answer: Result<u64, Refusal>, room: &mut [u8; ROOM]) -> usize
    requires { answer ≡ keep list.now 16896 }
    ensures text { Writes (kept_text list.now) room.old 0 result room.new }
    ensures counts { IsPrefixLen result room.new }
{
    let calls = (list.len() / 4) as u64;
    match answer {
        Ok(blocks) => put_counts(room, blocks, calls),
        Err(r) => refusal_lines::put_explained(room, 0, r),
    }
}
