// The writer of the journal of calls on file.
#![tactic(auto)]

ghost use Rattle.std.specs.Prelude.{◌≡◌, length};
ghost use Rattle.journal_write.specs.Keep.{keep, keep_into};

use refusals::Refusal;

// Writes a list as a journal into the room, and answers the number of blocks.
pub fn write(list: &[u8], room: &mut [u8]) -> Result<u64, Refusal>
    ensures answer { result ≡ keep list.now (length room.old) }
    ensures memory { room.new ≡ keep_into result list.now room.old }
{
    if list.len() % 4 != 0 || 16384 < list.len() {
        return Err(Refusal::List);
    }
    let k = (list.len() + 499) / 500;
    if room.len() < 512 * k {
        return Err(Refusal::Room);
    }
    journal_blocks::store_blocks(list, k, room);
    Ok(k as u64)
}
