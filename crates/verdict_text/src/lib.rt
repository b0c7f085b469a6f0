// What the verdict program prints, as bytes in a lent room: the seven lines of a verdict, or the line of a refusal.
#![tactic(auto)]

ghost use Rattle.io.specs.Counts.{IsPrefixLen};
ghost use Rattle.text.specs.Written.{Writes};
ghost use Rattle.verdict_text.specs.Verdict.{verdict_text, input_text};

use check_text::ROOM;
use refusals::Refusal;

// The verdict on an image: the seven lines, or the line of the refusal.
pub fn verdict(faulty: u64, image: &[u8], room: &mut [u8; ROOM]) -> usize
    ensures text { Writes (verdict_text faulty image.now) room.old 0 result room.new }
    ensures counts { IsPrefixLen result room.new }
{
    let mut table = [0u64; 4032];
    let q = image::read(image, &mut table);
    match q {
        Ok(n) => judged_text::judge(&table[..63 * (n as usize)], n, faulty, room),
        Err(r) => refusal_lines::put_refused(room, 0, r),
    }
}

// The verdict on what the verdict program is given: the faulty mask in 8 bytes, then an image.
pub fn verdict_on(input: &[u8], room: &mut [u8; ROOM]) -> usize
    ensures text { Writes (input_text input.now) room.old 0 result room.new }
    ensures counts { IsPrefixLen result room.new }
{
    if input.len() < 8 {
        return refusal_lines::put_refused(room, 0, Refusal::Length);
    }
    if 32776 < input.len() {
        return refusal_lines::put_refused(room, 0, Refusal::Length);
    }
    verdict(le::get64(input, 0), &input[8..], room)
}
