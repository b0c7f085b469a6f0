// The table of groups on file: writing a table in memory as an image.
#![tactic(auto)]

ghost use Rattle.std.specs.Prelude.{◌≡◌, length};
ghost use Rattle.image_write.specs.Write.{write, write_into};

use refusals::Refusal;

// Writes a table as an image into the room. The whole table is checked before a byte of the room changes.
pub fn write(table: &[u64], room: &mut [u8]) -> Result<u64, Refusal>
    ensures answer { result ≡ write table.now (length room.old) }
    ensures memory { room.new ≡ write_into result table.now room.old }
{
    let n = table.len() / 63;
    if table.len() % 63 != 0 {
        return Err(Refusal::Length);
    }
    if n == 0 {
        return Err(Refusal::Length);
    }
    if 64 < n {
        return Err(Refusal::Length);
    }
    if room.len() < 512 * n {
        return Err(Refusal::Room);
    }
    table::check_sites(table, n)?;
    image_blocks::store_blocks(table, n, room);
    Ok(n as u64)
}
