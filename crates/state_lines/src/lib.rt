// The lines of a state: its masks, and each site's line for the register.
#![tactic(auto)]

ghost use Rattle.std.specs.Prelude.{◌≡◌, ◌+◌, ◌*◌, ◌≤◌, length};
ghost use Rattle.rules.specs.State.{width};
ghost use Rattle.text.specs.Written.{Writes};
ghost use Rattle.state_lines.specs.State.{state_lines};

// The masks of a state, and the line of each site.
pub fn put_state(
    room: &mut [u8],
    at: usize,
    n: usize,
    faulty: u64,
    whole: u64,
    state: &[u64],
) -> usize
    requires n_in_bounds { at + 130 + 41 * n ≤ length room.old }
    requires state_len { length state.now ≡ width n }
    requires n_bound { n ≤ 64 }
    ensures { Writes (state_lines n faulty whole state.now) room.old at result room.new }
{
    let base = places::voted(n, 0);
    let drill = state[base + 4];
    let live = state[base + 5];
    let at = lines::line_sides(room, at, b"voted ", state[base], state[base + 1]);
    let at = lines::line_sides(room, at, b"accepted ", state[base + 2], state[base + 3]);
    let at = lines::line_sides(room, at, b"confirmed ", drill, live);
    register::put_sites(room, at, n as u64, faulty, whole, drill, live)
}
