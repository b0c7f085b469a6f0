// The blocks of a journal, one after the other: checked, read and written.
#![tactic(auto)]

ghost use Rattle.std.specs.Prelude.{◌≡◌, ◌++◌, ◌*◌, ◌≤◌, length, drop};
ghost use Rattle.journal_blocks.specs.Journal.{journal_blocks_check, list_of, blocks_for, journal_of};

use refusals::Refusal;

// All blocks, in order.
pub fn check_blocks(journal: &[u8], k: usize) -> Result<(), Refusal>
    requires journal_len { length journal.now ≡ 512 * k }
    requires k_bound { k ≤ 33 }
    ensures { result ≡ journal_blocks_check k journal.now }
{
    for place in 0..k {
        journal_block::check_block(
            &journal[512 * place..512 * place + 512],
            k as u64,
            place as u64,
        )?;
    }
    Ok(())
}

// The calls of all blocks into the room's first bytes.
pub fn list_blocks(journal: &[u8], k: usize, room: &mut [u8])
    requires journal_len { length journal.now ≡ 512 * k }
    requires k_bound { k ≤ 33 }
    requires journal_value { journal_blocks_check k journal.now ≡ Ok tt }
    requires journal_in_bounds { length (list_of journal.now) ≤ length room.old }
    ensures { room.new ≡ list_of journal.now ++ drop (length (list_of journal.now)) room.old }
{
    let mut at: usize = 0;
    for i in 0..k {
        let b = &journal[512 * i..512 * i + 512];
        let end = at + 4 * journal_block::calls_in(b);
        journal_calls::copy_calls(b, &mut room[at..end]);
        at = end;
    }
}

// A list into the room's first k blocks.
pub fn store_blocks(list: &[u8], k: usize, room: &mut [u8])
    requires k_value { k ≡ blocks_for (length list.now) }
    requires k_bound { k ≤ 33 }
    requires k_in_bounds { 512 * k ≤ length room.old }
    ensures { room.new ≡ journal_of list.now ++ drop (512 * k) room.old }
{
    for i in 0..k {
        let end = list.len().min(500 * i + 500);
        journal_calls::store_block(
            &list[500 * i..end],
            i as u16,
            &mut room[512 * i..512 * i + 512],
        );
    }
}
