// The journal of calls on file: its check, and its list for a run.
#![tactic(auto)]

ghost use Rattle.std.specs.Prelude.{◌≡◌, ◌*◌, ◌≤◌, length};
ghost use Rattle.journal.specs.Journal.{call_count, check, listed, list_into};
ghost use Rattle.journal_blocks.specs.Journal.{journal_blocks_check, list_of};

use refusals::Refusal;

// How many blocks and calls a journal has.
#[derive(Clone, Copy)]
pub struct Size {
    pub blocks: u64,
    pub calls: u64,
}

// The calls of a journal of k sound blocks: each but the last has 125.
fn count(journal: &[u8], k: usize) -> usize
    requires journal_len { length journal.now ≡ 512 * k }
    requires k_bound { k ≤ 33 }
    requires journal_value { journal_blocks_check k journal.now ≡ Ok tt }
    ensures { result ≡ call_count (list_of journal.now) }
{
    if k == 0 {
        return 0;
    }
    let last = k - 1;
    125 * last + journal_block::calls_in(&journal[512 * last..512 * last + 512])
}

// The check of a whole journal.
pub fn check(journal: &[u8]) -> Result<Size, Refusal>
    ensures { result ≡ check journal.now }
{
    if journal.len() % 512 != 0 || 16896 < journal.len() {
        return Err(Refusal::Journal);
    }
    let k = journal.len() / 512;
    journal_blocks::check_blocks(journal, k)?;
    let calls = count(journal, k);
    if 4096 < calls {
        return Err(Refusal::List);
    }
    Ok(Size {
        blocks: k as u64,
        calls: calls as u64,
    })
}

// Reads the list of a journal into the room, and answers its length. The journal is checked whole before a byte of the room changes.
pub fn list(journal: &[u8], room: &mut [u8]) -> Result<u64, Refusal>
    ensures answer { result ≡ listed journal.now (length room.old) }
    ensures memory { room.new ≡ list_into result journal.now room.old }
{
    let size = check(journal)?;
    let bytes = 4 * size.calls;
    if (room.len() as u64) < bytes {
        return Err(Refusal::Room);
    }
    journal_blocks::list_blocks(journal, size.blocks as usize, room);
    Ok(bytes)
}
