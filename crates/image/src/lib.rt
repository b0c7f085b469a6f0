// The table of groups on file: reading an image into a table in memory.
#![tactic(auto)]

ghost use Rattle.std.specs.Prelude.{◌≡◌, length};
ghost use Rattle.image.specs.Read.{read, read_into};

use refusals::Refusal;

// Reads an image into the room. All blocks are checked before a number of the room changes.
pub fn read(image: &[u8], room: &mut [u64]) -> Result<u64, Refusal>
    ensures answer { result ≡ read image.now (length room.old) }
    ensures memory { room.new ≡ read_into result image.now room.old }
{
    let n = image.len() / 512;
    if n == 0 {
        return Err(Refusal::Length);
    }
    if image.len() % 512 != 0 {
        return Err(Refusal::Length);
    }
    if 64 < n {
        return Err(Refusal::Length);
    }
    if room.len() < 63 * n {
        return Err(Refusal::Room);
    }
    image_blocks::check_blocks(image, n)?;
    image_blocks::load_blocks(image, n, room);
    let quorum = rounds::largest_set(&room[..63 * n], n, masks::all_below(n as u64));
    if quorum == 0 {
        return Err(Refusal::NoQuorum);
    }
    Ok(n as u64)
}
