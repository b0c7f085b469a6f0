// What `desk check` prints, as bytes in a lent room: the check of an image.
#![tactic(auto)]

ghost use Rattle.io.specs.Counts.{IsPrefixLen};
ghost use Rattle.text.specs.Written.{Writes};
ghost use Rattle.check_text.specs.Table.{check_text};

// Room for the text of a check, a verdict or a journal.
pub const ROOM: usize = 196608;

// The check of an image: `sound N`, or the refusal and what it means. Answers the length of the text.
pub fn check(image: &[u8], room: &mut [u8; ROOM]) -> usize
    ensures text { Writes (check_text image.now) room.old 0 result room.new }
    ensures counts { IsPrefixLen result room.new }
{
    let mut table = [0u64; 4032];
    let q = image::read(image, &mut table);
    match q {
        Ok(n) => lines::line_decimal(room, 0, b"sound ", n),
        Err(r) => refusal_lines::put_explained(room, 0, r),
    }
}
