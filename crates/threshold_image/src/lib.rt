// All blocks of a table of thresholds: checked, and read as rows.
#![tactic(auto)]

ghost use Rattle.std.specs.Prelude.{◌≡◌, ◌++◌, ◌*◌, ◌≤◌, length, drop};
ghost use Rattle.threshold_image.specs.Image.{threshold_blocks_check, thresholds_check};
ghost use Rattle.threshold_image.specs.Inner.{rows_of};

use refusals::Refusal;

// All blocks, in order.
fn check_blocks(image: &[u8], n: usize) -> Result<(), Refusal>
    requires image_len { length image.now ≡ 512 * n }
    requires n_bound { n ≤ 64 }
    ensures { result ≡ threshold_blocks_check n image.now }
{
    for place in 0..n {
        threshold_block::check_block(
            &image[512 * place..512 * place + 512],
            n as u64,
            place as u64,
            place as u64,
        )?;
    }
    Ok(())
}

// The image: 1, then block by block.
pub fn check(image: &[u8]) -> Result<(), Refusal>
    ensures { result ≡ thresholds_check image.now }
{
    let n = image.len() / 512;
    if n == 0 {
        return Err(Refusal::Length);
    }
    if image.len() % 512 != 0 {
        return Err(Refusal::Length);
    }
    if 64 < n {
        return Err(Refusal::Length);
    }
    check_blocks(image, n)
}

// All blocks as rows, in the room's first 63 n numbers.
pub fn load(image: &[u8], n: usize, room: &mut [u64])
    requires image_len { length image.now ≡ 512 * n }
    requires n_bound { n ≤ 64 }
    requires n_in_bounds { 63 * n ≤ length room.old }
    ensures { room.new ≡ rows_of n image.now ++ drop (63 * n) room.old }
{
    for i in 0..n {
        threshold_row::load_row(
            &image[512 * i..512 * i + 512],
            &mut room[63 * i..63 * i + 63],
        );
    }
}
