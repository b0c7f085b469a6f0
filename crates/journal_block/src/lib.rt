// One block of a journal, up to 125 calls as 512 bytes: its count of calls, and its check.
#![tactic(auto)]

ghost use Rattle.std.specs.Prelude.{◌≡◌, ◌≤◌, ◌<◌, length};
ghost use Rattle.journal_block.specs.Block.{calls_field, miscounted, calls_unfilled, journal_block_check};

use refusals::Refusal;

// The count of calls of a block.
pub fn calls_in(b: &[u8]) -> usize
    requires { length b.now ≡ 512 }
    ensures { result ≡ calls_field b.now }
{
    usize::from(le::get16(b, 2))
}

// Every block but the last holds 125 calls, the last 1 to 125.
fn is_miscounted(last: bool, calls: usize) -> bool
    ensures { result ≡ miscounted last calls }
{
    if last {
        calls == 0 || 125 < calls
    } else {
        calls != 125
    }
}

// A byte behind the last call is not zero: the sum of all is not. No branch in the loop.
fn is_unfilled(b: &[u8]) -> bool
    requires b_len { length b.now ≡ 512 }
    requires b_bound { calls_field b.now ≤ 125 }
    ensures { result ≡ calls_unfilled b.now }
{
    let rest = &b[4 + 4 * calls_in(b)..504];
    let mut sum: usize = 0;
    for x in rest {
        sum += usize::from(*x);
    }
    sum != 0
}

// The block at place i of a journal of k blocks: 2, 20, then 8.
pub fn check_block(b: &[u8], k: u64, i: u64) -> Result<(), Refusal>
    requires b_len { length b.now ≡ 512 }
    requires i_lt_k { i < k }
    ensures { result ≡ journal_block_check k i b.now }
{
    if block::check(b) != 0 {
        return Err(Refusal::Sums(i));
    }
    if u64::from(le::get16(b, 0)) != i {
        return Err(Refusal::Numbering(i));
    }
    if is_miscounted(i + 1 == k, calls_in(b)) {
        return Err(Refusal::Numbering(i));
    }
    if is_unfilled(b) {
        return Err(Refusal::Filler(i));
    }
    Ok(())
}
