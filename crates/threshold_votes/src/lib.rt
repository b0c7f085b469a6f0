// The voting and the run over a table of thresholds as public calls: the image is checked first; the rest is asked of its rows.
#![tactic(auto)]

ghost use Rattle.std.specs.Prelude.{◌≡◌, length};
ghost use Rattle.run.specs.Run.{ran, state_into, answers_into};
ghost use Rattle.sets.specs.Groups.{thresholds};
ghost use Rattle.votes.specs.Call.{call};
ghost use Rattle.voting.specs.Step.{sound_check, step_check, step_into};

use refusals::Refusal;

// The soundness of a state: image, 10, 18.
pub fn sound(image: &[u8], faulty: u64, state: &[u64]) -> Result<(), Refusal>
    ensures { result ≡ sound_check (thresholds image.now) faulty state.now }
{
    threshold_image::check(image)?;
    let n = image.len() / 512;
    let mut rows = [0u64; 4032];
    threshold_image::load(image, n, &mut rows);
    voting::sound_of(&rows[..63 * n], n, faulty, state)
}

// One call on a state: image, 10, 18, 11, 13, 12, 14, 15.
pub fn step(
    image: &[u8],
    faulty: u64,
    state: &mut [u64],
    kind: u8,
    from: u8,
    to: u8,
    side: u8,
) -> Result<(), Refusal>
    ensures answer { result ≡ step_check (thresholds image.now) faulty (call kind from to side) state.old }
    ensures memory { state.new ≡ step_into (thresholds image.now) faulty (call kind from to side) state.old }
{
    threshold_image::check(image)?;
    let n = image.len() / 512;
    let mut rows = [0u64; 4032];
    threshold_image::load(image, n, &mut rows);
    voting::step_of(&rows[..63 * n], n, faulty, state, kind, from, to, side)
}

// The run of a list of calls, four bytes a call, from a fresh state: image, 10, 17, 9, then the run.
pub fn run(
    image: &[u8],
    faulty: u64,
    list: &[u8],
    state: &mut [u64],
    answers: &mut [u8],
) -> Result<u64, Refusal>
    ensures answer { result ≡ ran (thresholds image.now) faulty list.now (length state.old) (length answers.old) }
    ensures states { state.new ≡ state_into result (thresholds image.now) faulty list.now state.old }
    ensures bytes { answers.new ≡ answers_into result (thresholds image.now) faulty list.now answers.old }
{
    threshold_image::check(image)?;
    let n = image.len() / 512;
    let mut rows = [0u64; 4032];
    threshold_image::load(image, n, &mut rows);
    run::run_of(&rows[..63 * n], n, faulty, list, state, answers)
}
