// The lines of a run: its passes, the state it ends in, and each call with its answer.
#![tactic(auto)]

ghost use Rattle.std.specs.Prelude.{◌≡◌, ◌+◌, ◌*◌, ◌≤◌, length};
ghost use Rattle.outcome.specs.Outcome.{call_line, call_lines, EndsIn};
ghost use Rattle.rules.specs.State.{width};
ghost use Rattle.text.specs.Written.{Writes};

// The line of one call.
fn put_call(
    room: &mut [u8],
    at: usize,
    i: usize,
    answer: u8,
    kind: u8,
    from: u8,
    to: u8,
    side: u8,
) -> usize
    requires { at + 131 ≤ length room.old }
    ensures { Writes (call_line i answer kind from to side) room.old at result room.new }
{
    let at = text::put(room, at, b"call ");
    let at = text::put_decimal(room, at, i as u64);
    let at = text::put(room, at, b" ");
    let at = text::put_decimal(room, at, answer as u64);
    let at = text::put(room, at, b" ");
    call_lines::put_call(room, at, kind, from, to, side)
}

// The line of each call.
fn put_calls(room: &mut [u8], at: usize, list: &[u8], answers: &[u8]) -> usize
    requires answers_in_bounds { at + 131 * length answers.now ≤ length room.old }
    requires answers_in_bounds_2 { 4 * length answers.now ≤ length list.now }
    ensures { Writes (call_lines list.now answers.now) room.old at result room.new }
{
    let mut end = at;
    for (i, answer) in answers.iter().enumerate() {
        let k = 4 * i;
        end = put_call(
            room,
            end,
            i,
            *answer,
            list[k],
            list[k + 1],
            list[k + 2],
            list[k + 3],
        );
    }
    end
}

// The lines of a run.
pub fn put_run(
    room: &mut [u8],
    faulty: u64,
    n: usize,
    whole: u64,
    passes: u64,
    state: &[u64],
    list: &[u8],
    answers: &[u8],
) -> usize
    requires in_bounds { 589824 ≤ length room.old }
    requires state_len { length state.now ≡ width n }
    requires n_bound { n ≤ 64 }
    requires answers_len_bound { length answers.now ≤ 4096 }
    requires answers_in_bounds { 4 * length answers.now ≤ length list.now }
    ensures { EndsIn faulty n whole passes state.now list.now answers.now room.old result room.new }
{
    let at = lines::line_decimal(room, 0, b"sites ", n as u64);
    let at = lines::line_mask(room, at, b"faulty ", faulty);
    let at = lines::line_decimal(room, at, b"passes ", passes);
    let at = state_lines::put_state(room, at, n, faulty, whole, state);
    put_calls(room, at, list, answers)
}
