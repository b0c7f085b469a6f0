// What the programs print of journals. Of these standard output is written by `say` alone, which has the text in hand and nothing else; it is called by
// the functions behind it, and each of these is lent the bytes that were read.
#![tactic(auto)]

ghost use Rattle.std.specs.Prelude.{◌≡◌};
ghost use Rattle.journal_text.specs.JournalText.{journal_text, kept_text};
ghost use Rattle.replay_text.specs.Replay.{replay_text};
ghost use Rattle.journal_printing.specs.SaidOfJournals.{SaidOfJournals};

// Prints a text that some bytes have, and no other.
fn say(rt: &HostRuntime, text: &[u8])
    requires { SaidOfJournals text.now }
{
    files::answer(rt, text);
}

// Prints what is said of a list that was kept.
pub fn say_kept(rt: &HostRuntime, list: &[u8], kept: &[u8])
    requires { kept.now ≡ kept_text list.now }
{
    say(rt, kept);
}

// Prints the check of a journal.
pub fn say_journal(rt: &HostRuntime, journal: &[u8], check: &[u8])
    requires { check.now ≡ journal_text journal.now }
{
    say(rt, check);
}

// Prints the run of a journal's list on an image.
pub fn say_replay(rt: &HostRuntime, faulty: u64, image: &[u8], journal: &[u8], run: &[u8])
    requires { run.now ≡ replay_text faulty image.now journal.now }
{
    say(rt, run);
}
