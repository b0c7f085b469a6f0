// A group joins the groups of its site, which stand in ascending order.
#![tactic(auto)]

ghost use Rattle.std.specs.Prelude.{◌≡◌, cond, ◌++◌, ltb, ◌+◌, ◌≤◌, ◌<◌, length, take, drop};
ghost use Rattle.rows.specs.Site.{count};
ghost use Rattle.group_order.specs.Joined.{sift, joined, known};

// The group is there already.
pub fn known(q: u64, m: &[u64]) -> bool
    requires m_len { length m.now ≡ 63 }
    requires m_bound { count m.now ≤ 62 }
    ensures { result ≡ known q m.now }
{
    let many = m[0] as usize;
    m[1..1 + many].contains(&q)
}

// q goes through the first many numbers behind the count, and one number goes out behind them.
fn sift(m: &mut [u64], q: u64, many: usize)
    requires m_len { length m.old ≡ 63 }
    requires many_bound { many < 62 }
    ensures { m.new ≡ take 1 m.old ++ (sift q (take many (drop 1 m.old)) ++ drop (2 + many) m.old) }
{
    let mut c = q;
    for k in 0..many {
        let x = m[1 + k];
        m[1 + k] = c.min(x);
        c = c.max(x);
    }
    m[1 + many] = c;
}

// The row with one group more.
pub fn join(m: &mut [u64], q: u64)
    requires m_len { length m.old ≡ 63 }
    requires m_bound { count m.old < 62 }
    ensures { m.new ≡ joined q m.old }
{
    let many = m[0] as usize;
    sift(m, q, many);
    m[0] = many as u64 + 1;
}
