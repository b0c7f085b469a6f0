// Number 18: a state that the rules do not explain, as a whole.
#![tactic(auto)]

ghost use Rattle.std.specs.Prelude.{◌≡◌, ℕ, not, length};
ghost use Rattle.ground.specs.Search.{some};
ghost use Rattle.masks.specs.Mask.{within};
ghost use Rattle.rules.specs.State.{get};
ghost use Rattle.rules.specs.Sound.{unsound};
ghost use Rattle.sets.specs.Inner.Rows.{Rows, row_questions};

// The sites named by the state's numbers, all together. No branch in the loop.
fn together(state: &[u64]) -> u64
    ensures { (u : ℕ) → not (within result u) ≡ some (length state.now) (λ i. not (within (get state.now i) u)) }
{
    let mut any = 0u64;
    for number in state {
        any |= *number;
    }
    any
}

// The state is unsound.
#[tactic(auto, unfolding(rules::specs::Sound::unsound))]
pub fn is_unsound(table: &[u64], n: usize, faulty: u64, state: &[u64]) -> bool
    requires { Rows table.now n }
    ensures { result ≡ unsound (row_questions table.now n) n faulty state.now }
{
    if state.len() != places::width(n) {
        return true;
    }
    let any = together(state);
    if !masks::within(any, masks::all_below(n as u64)) {
        return true;
    }
    let drill = state[places::voted(n, 0)];
    let live = state[places::voted(n, 1)];
    if drill & live != 0 {
        return true;
    }
    bad_sites::some_bad_site(table, n, faulty, state, any)
}
