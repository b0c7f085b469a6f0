// The places of a state, by name, and the one way in which a state is added to.
#![tactic(auto)]

ghost use Rattle.std.specs.Prelude.{◌≡◌, ◌+◌, ◌-◌, ◌*◌, ◌<◌, ◌≤◌, length};
ghost use Rattle.rules.specs.State.{votes, accepts, voted, accepted, confirmed, width, add};

// The votes that site v heard for a side.
pub fn votes(side: usize, v: usize) -> usize
    requires side_bound { side < 2 }
    requires v_bound { v ≤ 64 }
    ensures { result ≡ votes side v }
{
    4 * v + side
}

// The accepts that site v heard for a side.
pub fn accepts(side: usize, v: usize) -> usize
    requires side_bound { side < 2 }
    requires v_bound { v ≤ 64 }
    ensures { result ≡ accepts side v }
{
    4 * v + 2 + side
}

// The sites that voted for a side.
pub fn voted(n: usize, side: usize) -> usize
    requires n_bound { n ≤ 64 }
    requires side_bound { side < 2 }
    ensures { result ≡ voted n side }
{
    4 * n + side
}

// The sites that accepted a side.
pub fn accepted(n: usize, side: usize) -> usize
    requires n_bound { n ≤ 64 }
    requires side_bound { side < 2 }
    ensures { result ≡ accepted n side }
{
    4 * n + 2 + side
}

// The sites that confirmed a side.
pub fn confirmed(n: usize, side: usize) -> usize
    requires n_bound { n ≤ 64 }
    requires side_bound { side < 2 }
    ensures { result ≡ confirmed n side }
{
    4 * n + 4 + side
}

// The sites that sent a vote, which is kind 1, or an accept, kind 2, for a side: those who accepted stand two places behind those who voted.
pub fn sent_at(n: usize, kind: usize, side: usize) -> usize
    requires n_bound { n ≤ 64 }
    requires le_kind { 1 ≤ kind }
    requires kind_bound { kind < 3 }
    requires side_bound { side < 2 }
    ensures { result ≡ voted n side + 2 * (kind - 1) }
{
    voted(n, side) + 2 * (kind - 1)
}

// The votes or the accepts, by the kind, that site v heard for a side: the accepts stand two places behind the votes.
pub fn heard_at(kind: usize, side: usize, v: usize) -> usize
    requires le_kind { 1 ≤ kind }
    requires kind_bound { kind < 3 }
    requires side_bound { side < 2 }
    requires v_bound { v ≤ 64 }
    ensures { result ≡ votes side v + 2 * (kind - 1) }
{
    votes(side, v) + 2 * (kind - 1)
}

// How many numbers a state has.
pub fn width(n: usize) -> usize
    requires { n ≤ 64 }
    ensures { result ≡ width n }
{
    4 * n + 6
}

// The sites of m put into the set at a place.
pub fn put(state: &mut [u64], place: usize, m: u64)
    requires { place < length state.old }
    ensures { state.new ≡ add place m state.old }
{
    state[place] |= m;
}
