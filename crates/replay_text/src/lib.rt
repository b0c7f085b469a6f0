// What `desk replay` prints, as bytes in a lent room: the run of a journal's list on an image.
#![tactic(auto)]

ghost use Rattle.std.specs.Prelude.{◌≡◌};
ghost use Rattle.io.specs.Counts.{IsPrefixLen};
ghost use Rattle.text.specs.Written.{Writes};
ghost use Rattle.replay_text.specs.Replay.{asked_check, replay_text};

use refusals::Refusal;
use run_text::ROOM;

// The table as in reading, then 10.
fn asked(faulty: u64, image: &[u8]) -> Result<(), Refusal>
    ensures { result ≡ asked_check faulty image.now }
{
    let mut table = [0u64; 4032];
    let n = image::read(image, &mut table)?;
    sets::check_set(n as usize, faulty)
}

// The run of a journal's list on an image: its lines, or the refusal and what it means. Answers the length of the text.
pub fn replay(faulty: u64, image: &[u8], journal: &[u8], room: &mut [u8; ROOM]) -> usize
    ensures text { Writes (replay_text faulty image.now journal.now) room.old 0 result room.new }
    ensures counts { IsPrefixLen result room.new }
{
    if let Err(r) = asked(faulty, image) {
        return refusal_lines::put_explained(room, 0, r);
    }
    let mut calls = [0u8; 16384];
    match journal::list(journal, &mut calls) {
        Ok(n) => run_text::run(faulty, image, &calls[..n as usize], room),
        Err(r) => refusal_lines::put_explained(room, 0, r),
    }
}
