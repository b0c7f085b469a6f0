// One block of the table on file, written from a site's numbers.
#![tactic(auto)]

ghost use Rattle.std.specs.Prelude.{◌≡◌, ◌++◌, ◌≤◌, ◌<◌, length, take, drop};
ghost use Rattle.rows.specs.Site.{count};
ghost use Rattle.site_block.specs.Block.{head, places, store};

// Bytes 0 to 7 of a block.
fn put_head(b: &mut [u8], i: u16, n: u16, many: u16)
    requires { length b.old ≡ 512 }
    ensures { b.new ≡ head i n many ++ drop 8 b.old }
{
    le::put16(b, 0, i);
    le::put16(b, 2, n);
    le::put16(b, 4, many);
    le::put16(b, 6, 0);
}

// Bytes 8 to 503 of a block.
fn put_places(b: &mut [u8], m: &[u64])
    requires b_len { length b.old ≡ 512 }
    requires m_len { length m.now ≡ 63 }
    ensures { b.new ≡ (take 8 b.old ++ places m.now 62) ++ drop 504 b.old }
{
    for j in 0..62 {
        le::put64(b, 8 + 8 * j, m[1 + j]);
    }
}

// The block of site i, from its 63 numbers.
pub fn store_block(m: &[u64], n: u64, i: u64, b: &mut [u8])
    requires m_len { length m.now ≡ 63 }
    requires b_len { length b.old ≡ 512 }
    requires m_bound { count m.now ≤ 62 }
    requires i_bound { i < 64 }
    requires n_bound { n ≤ 64 }
    ensures { b.new ≡ store n i m.now }
{
    put_head(b, i as u16, n as u16, m[0] as u16);
    put_places(b, m);
    block::put_sums(b);
}
