// Words, numbers and masks, written one behind the other into a lent room; and a mask that was typed.
#![tactic(auto)]

ghost use Rattle.std.specs.Prelude.{◌≡◌, ◌+◌, ◌≤◌, length};
ghost use Rattle.text.specs.Text.{decimal, mask, typed};
ghost use Rattle.text.specs.Written.{Writes};

// Writes the bytes of `words` from place `at` on, and answers the place behind them.
pub fn put(room: &mut [u8], at: usize, words: &[u8]) -> usize
    requires { at + length words.now ≤ length room.old }
    ensures { Writes words.now room.old at result room.new }
{
    let end = at + words.len();
    room[at..end].copy_from_slice(words);
    end
}

// Writes a number in decimal digits. A 64-bit number has at most 20.
pub fn put_decimal(room: &mut [u8], at: usize, x: u64) -> usize
    requires { at + 20 ≤ length room.old }
    ensures { Writes (decimal x) room.old at result room.new }
{
    let mut digits = [0u8; 20];
    let k = io::decimal(x, &mut digits);
    put(room, at, &digits[..k])
}

// Writes a mask in 16 hexadecimal digits.
pub fn put_mask(room: &mut [u8], at: usize, m: u64) -> usize
    requires { at + 16 ≤ length room.old }
    ensures { Writes (mask m) room.old at result room.new }
{
    let mut digits = [0u8; 16];
    let k = io::hex(m, 16, &mut digits);
    put(room, at, &digits[..k])
}

// The mask that was typed: `None` where that is not 1 to 16 hexadecimal digits.
pub fn mask_typed(word: &[u8]) -> Option<u64>
    ensures { result ≡ typed word.now }
{
    if !matches!(word.len(), 1..=16) {
        return None;
    }
    let mut m: u64 = 0;
    for b in word {
        let d = char::from(*b).to_digit(16)?;
        m = 16 * m + u64::from(d);
    }
    Some(m)
}
