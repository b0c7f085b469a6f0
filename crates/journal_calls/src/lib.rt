// The calls of one block of a journal: read out of it, and a block written that holds them.
#![tactic(auto)]

ghost use Rattle.std.specs.Prelude.{◌≡◌, ◌++◌, ◌≤◌, length, take, drop};
ghost use Rattle.journal_block.specs.Block.{call_bytes, journal_block};

// The first bytes of a block's calls, as many as there is room for.
pub fn copy_calls(b: &[u8], room: &mut [u8])
    requires b_len { length b.now ≡ 512 }
    requires room_len_bound { length room.old ≤ 500 }
    ensures { room.new ≡ take (length room.old) (drop 4 b.now) }
{
    // By `copy_from_slice` the archive for C would call `memmove`; it may call `memcpy` and `memset` alone.
    for j in 0..room.len() {
        room[j] = b[4 + j];
    }
}

// Bytes 4 to 503 of a block: the calls, and zeros behind them.
fn put_calls(b: &mut [u8], calls: &[u8])
    requires b_len { length b.old ≡ 512 }
    requires calls_len_bound { length calls.now ≤ 500 }
    ensures { b.new ≡ (take 4 b.old ++ call_bytes calls.now) ++ drop 504 b.old }
{
    // As above.
    for j in 0..calls.len() {
        b[4 + j] = calls[j];
    }
    for j in calls.len()..500 {
        b[4 + j] = 0;
    }
}

// The block at place i that holds these calls.
pub fn store_block(calls: &[u8], i: u16, b: &mut [u8])
    requires calls_len_bound { length calls.now ≤ 500 }
    requires b_len { length b.old ≡ 512 }
    ensures { b.new ≡ journal_block i calls.now }
{
    le::put16(b, 0, i);
    le::put16(b, 2, (calls.len() / 4) as u16);
    put_calls(b, calls);
    block::put_sums(b);
}
