// An answer about a journal as a call says it, where it is no one number: its number is answered, and its place and values are written to the four numbers
// of `out`.
#![tactic(auto)]

ghost use Rattle.std.specs.Prelude.{◌≡◌, [], ◌∷◌};
ghost use Rattle.le.specs.Le as Le;
ghost use Rattle.said_journal.specs.Said.{of_checked, of_next, of_taken};

use journal::Size;
use journal_next::Next;
use refusals::Refusal;

pub fn checked(answer: Result<Size, Refusal>, out: &mut [u64; 4]) -> u64
    ensures answer { result ≡ (of_checked answer).number }
    ensures memory { out.new ≡ (of_checked answer).out }
{
    match answer {
        Ok(size) => telling::give(out, size.blocks, size.calls, 0),
        Err(r) => telling::refuse(out, r),
    }
}

// A call's four bytes as a number, kind lowest.
fn call_number(call: Next) -> u64
    ensures { result ≡ Le.number (call.kind ∷ call.from ∷ call.to ∷ call.side ∷ []) }
{
    u64::from(u32::from_le_bytes([call.kind, call.from, call.to, call.side]))
}

fn next(answer: Option<Next>, out: &mut [u64; 4]) -> u64
    ensures answer { result ≡ (of_next answer).number }
    ensures memory { out.new ≡ (of_next answer).out }
{
    match answer {
        Some(call) => telling::give(out, 1, call_number(call), call.place as u64),
        None => telling::give(out, 0, 0, 0),
    }
}

// The call at a place of a journal, where the check takes the journal.
pub fn taken(check: Result<Size, Refusal>, answer: Option<Next>, out: &mut [u64; 4]) -> u64
    ensures answer { result ≡ (of_taken check answer).number }
    ensures memory { out.new ≡ (of_taken check answer).out }
{
    match check {
        Ok(_) => next(answer, out),
        Err(r) => telling::refuse(out, r),
    }
}
