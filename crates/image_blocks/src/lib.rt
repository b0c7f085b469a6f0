// All blocks of the table on file: checked, read and written.
#![tactic(auto)]

ghost use Rattle.std.specs.Prelude.{◌≡◌, ◌++◌, ◌*◌, ◌≤◌, length, drop};
ghost use Rattle.image_blocks.specs.Image.{loads, stores, blocks_check};
ghost use Rattle.table.specs.Table.{sites_check};

use refusals::Refusal;

// All blocks, in order.
pub fn check_blocks(image: &[u8], n: usize) -> Result<(), Refusal>
    requires image_len { length image.now ≡ 512 * n }
    requires n_bound { n ≤ 64 }
    ensures { result ≡ blocks_check n image.now }
{
    for place in 0..n {
        site_block::check_block(
            &image[512 * place..512 * place + 512],
            n as u64,
            place as u64,
            place as u64,
        )?;
    }
    Ok(())
}

// All blocks into the room's first 63 n numbers.
pub fn load_blocks(image: &[u8], n: usize, room: &mut [u64])
    requires image_len { length image.now ≡ 512 * n }
    requires n_bound { n ≤ 64 }
    requires n_in_bounds { 63 * n ≤ length room.old }
    ensures { room.new ≡ loads n image.now ++ drop (63 * n) room.old }
{
    for i in 0..n {
        site_block::load_block(
            &image[512 * i..512 * i + 512],
            &mut room[63 * i..63 * i + 63],
        );
    }
}

// All sites into the room's first 512 n bytes.
pub fn store_blocks(table: &[u64], n: usize, room: &mut [u8])
    requires table_len { length table.now ≡ 63 * n }
    requires n_bound { n ≤ 64 }
    requires n_in_bounds { 512 * n ≤ length room.old }
    requires table_value { sites_check n table.now ≡ Ok tt }
    ensures { room.new ≡ stores n table.now ++ drop (512 * n) room.old }
{
    for i in 0..n {
        site_write::store_block(
            &table[63 * i..63 * i + 63],
            n as u64,
            i as u64,
            &mut room[512 * i..512 * i + 512],
        );
    }
}
