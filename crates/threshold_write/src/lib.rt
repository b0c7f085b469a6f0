// One block of a table of thresholds, written from the sets of a line.
#![tactic(auto)]

ghost use Rattle.std.specs.Prelude.{◌≡◌, ◌++◌, ◌+◌, ◌%◌, ◌≤◌, ◌<◌, length, take, drop};
ghost use Rattle.std.proofs.lemmas.List.Edits.{sets};
ghost use Rattle.le.specs.Le.{digits};
ghost use Rattle.site_block.specs.Block.{head};
ghost use Rattle.threshold_reading.specs.Lines.{sets_heard};
ghost use Rattle.threshold_write.specs.Store.{set_places, store_sets};

// Bytes 0 to 7 of a block.
fn put_head(b: &mut [u8], i: u16, n: u16, many: u16)
    requires { length b.old ≡ 512 }
    ensures { b.new ≡ head i n many ++ drop 8 b.old }
{
    le::put16(b, 0, i);
    le::put16(b, 2, n);
    le::put16(b, 4, many);
    le::put16(b, 6, 0);
}

// Ten bytes: a threshold, a number of inner sets and a mask.
fn put_set(b: &mut [u8], at: usize, threshold: u64, inner: u64, plain: u64)
    requires { at + 10 ≤ length b.old }
    ensures { b.new ≡ sets b.old at (digits 1 threshold ++ (digits 1 inner ++ digits 8 plain)) }
{
    b[at] = (threshold % 256) as u8;
    b[at + 1] = (inner % 256) as u8;
    le::put64(b, at + 2, plain);
}

// Bytes 8 to 497 of a block: the sets of site u.
fn put_places(b: &mut [u8], t: &[u64], u: usize)
    requires b_len { length b.old ≡ 512 }
    requires t_len { length t.now ≡ 9472 }
    requires u_bound { u < 64 }
    ensures { b.new ≡ (take 8 b.old ++ set_places (sets_heard t.now u) 49) ++ drop 498 b.old }
{
    for i in 0..49 {
        let threshold = t[148 * u + (1 + 3 * i)];
        let inner = t[148 * u + (2 + 3 * i)];
        put_set(b, 8 + 10 * i, threshold, inner, t[148 * u + (3 + 3 * i)]);
    }
}

// Bytes 498 to 503 of a block are zero.
fn put_zeros(b: &mut [u8])
    requires { length b.old ≡ 512 }
    ensures { b.new ≡ (take 498 b.old ++ digits 6 0) ++ drop 504 b.old }
{
    le::put16(b, 498, 0);
    le::put32(b, 500, 0);
}

// The block of site u, from the sets of its line.
pub fn store_sets(t: &[u64], n: u64, u: usize, b: &mut [u8])
    requires t_len { length t.now ≡ 9472 }
    requires b_len { length b.old ≡ 512 }
    requires n_bound { n ≤ 64 }
    requires u_bound { u < 64 }
    ensures { b.new ≡ store_sets n u (sets_heard t.now u) }
{
    put_head(b, u as u16, n as u16, (t[148 * u] % 65536) as u16);
    put_places(b, t, u);
    put_zeros(b);
    block::put_sums(b);
}
