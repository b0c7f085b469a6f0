// What `desk show` prints of an image, as bytes in a lent room. Answers the length of what it wrote.
#![tactic(auto)]

ghost use Rattle.io.specs.Counts.{IsPrefixLen};
ghost use Rattle.text.specs.Written.{Writes};
ghost use Rattle.table_text.specs.ShowText.{show_text};

// Room for the text of every table, the longest of which has 770,057 bytes.
pub const SHOWN: usize = 786432;

// The table that an image holds, as text; or the refusal and what it means.
pub fn show(image: &[u8], room: &mut [u8; SHOWN]) -> usize
    ensures text { Writes (show_text image.now) room.old 0 result room.new }
    ensures counts { IsPrefixLen result room.new }
{
    let mut table = [0u64; 4032];
    let q = image::read(image, &mut table);
    match q {
        Ok(n) => {
            let n = n as usize;
            table_shown::show(room, &table[..63 * n])
        }
        Err(r) => refusal_lines::put_explained(room, 0, r),
    }
}
