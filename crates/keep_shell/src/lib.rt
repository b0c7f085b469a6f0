// What the desk does to keep a list of calls: read it, have the journal made, put it on file, print. Nothing here decides anything of the rules. A file is
// written by `put_on_file` alone, which is lent the list that was read and its journal.
#![tactic(auto)]

ghost use Rattle.std.specs.Prelude.{◌≡◌};
ghost use Rattle.journal_write.specs.Keep.{keep};
ghost use Rattle.journal_blocks.specs.Journal.{journal_of};

use refusals::Refusal;

// Puts the journal of a list on file, and no other bytes.
fn put_on_file(rt: &HostRuntime, list: &[u8], journal: &[u8], name: usize) -> bool
    requires { journal.now ≡ journal_of list.now }
{
    filing::put_new(rt, b"desk keep CALLS JOURNAL", name, journal)
}

// Says what became of a list that was to be kept, by the writer's answer.
fn tell(rt: &HostRuntime, list: &[u8], kept: Result<u64, Refusal>)
    requires { kept ≡ keep list.now 16896 }
{
    let mut room = [0u8; 196608];
    let end = journal_text::kept(list, kept, &mut room);
    journal_printing::say_kept(rt, list, &room[..end]);
}

// Keeps a list under the name that an argument gives.
fn keep_list(rt: &HostRuntime, list: &[u8], name: usize) {
    let mut journal = [0u8; 16896];
    let kept = journal_write::write(list, &mut journal);
    let Ok(k) = kept else {
        tell(rt, list, kept);
        return;
    };
    let end = 512 * (k as usize);
    let journal = &journal[..end];
    if put_on_file(rt, list, journal, name) {
        tell(rt, list, kept);
    }
}

// desk keep CALLS JOURNAL, where CALLS and JOURNAL are the numbers of arguments
pub fn keep_of(rt: &HostRuntime, calls: usize, name: usize) {
    let mut list = io::large_buffer();
    let whole = files::fetch(rt, b"desk keep CALLS JOURNAL", calls, &mut list);
    let Some(n) = whole else {
        return;
    };
    let list = &list[..n];
    if filing::is_free(rt, b"desk keep CALLS JOURNAL", name) {
        keep_list(rt, list, name);
    }
}
