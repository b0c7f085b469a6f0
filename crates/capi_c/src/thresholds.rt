// The calls over a table of thresholds.
ghost use Rattle.std.specs.Prelude.{◌≡◌};
ghost use Rattle.said_votes.specs.Run.{run_says, run_state, run_answers};
ghost use Rattle.questions.specs.Answers.{quorum, largest, blocks, shared, intact};
ghost use Rattle.said.specs.Said.{of_check, of_number};
ghost use Rattle.said_sets.specs.Said.{of_holds, of_greatest, of_sharing};
ghost use Rattle.sets.specs.Groups.{thresholds};
ghost use Rattle.threshold_image.specs.Image.{thresholds_check};
ghost use Rattle.voting.specs.Step.{sound_check, step_check, step_into};
ghost use Rattle.packing.specs.Pack.{bytes_of};
ghost use Rattle.votes.specs.Call.{call};

use packing::Call;

// The check of a table of thresholds.
#[unsafe(no_mangle)]
pub extern "C" fn siren_threshold_check(image: &[u8], out: &mut [u64; 4]) -> u64
    ensures answer { result ≡ (of_check (thresholds_check image.now)).number }
    ensures told { out.new ≡ (of_check (thresholds_check image.now)).out }
{
    capi::thresholds::siren_threshold_check(image, out)
}

// Is the set a quorum?
#[unsafe(no_mangle)]
pub extern "C" fn siren_threshold_quorum(image: &[u8], set: u64, out: &mut [u64; 4]) -> u64
    ensures answer { result ≡ (of_holds (quorum (thresholds image.now) set)).number }
    ensures told { out.new ≡ (of_holds (quorum (thresholds image.now) set)).out }
{
    capi::thresholds::siren_threshold_quorum(image, set, out)
}

// The largest quorum inside the set, and its rounds.
#[unsafe(no_mangle)]
pub extern "C" fn siren_threshold_largest(image: &[u8], set: u64, out: &mut [u64; 4]) -> u64
    ensures answer { result ≡ (of_greatest (largest (thresholds image.now) set)).number }
    ensures told { out.new ≡ (of_greatest (largest (thresholds image.now) set)).out }
{
    capi::thresholds::siren_threshold_largest(image, set, out)
}

// Does the set block the site?
#[unsafe(no_mangle)]
pub extern "C" fn siren_threshold_blocks(
    image: &[u8],
    set: u64,
    site: u64,
    out: &mut [u64; 4],
) -> u64
    ensures answer { result ≡ (of_holds (blocks (thresholds image.now) set site)).number }
    ensures told { out.new ≡ (of_holds (blocks (thresholds image.now) set site)).out }
{
    capi::thresholds::siren_threshold_blocks(image, set, site, out)
}

// Do every two quorums have a common site?
#[unsafe(no_mangle)]
pub extern "C" fn siren_threshold_shared(image: &[u8], out: &mut [u64; 4]) -> u64
    ensures answer { result ≡ (of_sharing (shared (thresholds image.now))).number }
    ensures told { out.new ≡ (of_sharing (shared (thresholds image.now))).out }
{
    capi::thresholds::siren_threshold_shared(image, out)
}

// Which sites are intact when those of the set are faulty?
#[unsafe(no_mangle)]
pub extern "C" fn siren_threshold_intact(image: &[u8], faulty: u64, out: &mut [u64; 4]) -> u64
    ensures answer { result ≡ (of_number (intact (thresholds image.now) faulty)).number }
    ensures told { out.new ≡ (of_number (intact (thresholds image.now) faulty)).out }
{
    capi::thresholds::siren_threshold_intact(image, faulty, out)
}

// Is the state sound?
#[unsafe(no_mangle)]
pub extern "C" fn siren_threshold_sound(
    image: &[u8],
    faulty: u64,
    state: &[u64],
    out: &mut [u64; 4],
) -> u64
    ensures answer { result ≡ (of_check (sound_check (thresholds image.now) faulty state.now)).number }
    ensures told { out.new ≡ (of_check (sound_check (thresholds image.now) faulty state.now)).out }
{
    capi::thresholds::siren_threshold_sound(image, faulty, state, out)
}

// One call on a state.
#[unsafe(no_mangle)]
pub extern "C" fn siren_threshold_step(
    image: &[u8],
    faulty: u64,
    state: &mut [u64],
    kind: u8,
    from: u8,
    to: u8,
    side: u8,
    out: &mut [u64; 4],
) -> u64
    ensures answer { result ≡ (of_check (step_check (thresholds image.now) faulty (call kind from to side) state.old)).number }
    ensures told { out.new ≡ (of_check (step_check (thresholds image.now) faulty (call kind from to side) state.old)).out }
    ensures memory { state.new ≡ step_into (thresholds image.now) faulty (call kind from to side) state.old }
{
    capi::thresholds::siren_threshold_step(image, faulty, state, kind, from, to, side, out)
}

// The run of a list of calls, four bytes a call, from a fresh state.
#[unsafe(no_mangle)]
pub extern "C" fn siren_threshold_run(
    image: &[u8],
    faulty: u64,
    calls: &[u8],
    state: &mut [u64],
    answers: &mut [u8],
    out: &mut [u64; 4],
) -> u64
    ensures answer { result ≡ (run_says (thresholds image.now) faulty calls.now state.old answers.old).number }
    ensures told { out.new ≡ (run_says (thresholds image.now) faulty calls.now state.old answers.old).out }
    ensures states { state.new ≡ run_state (thresholds image.now) faulty calls.now state.old answers.old }
    ensures bytes { answers.new ≡ run_answers (thresholds image.now) faulty calls.now state.old answers.old }
{
    capi::thresholds::siren_threshold_run(image, faulty, calls, state, answers, out)
}

// The same run of a list of call records.
#[unsafe(no_mangle)]
pub extern "C" fn siren_threshold_run_records(
    image: &[u8],
    faulty: u64,
    calls: &[Call],
    state: &mut [u64],
    answers: &mut [u8],
    out: &mut [u64; 4],
) -> u64
    ensures answer { result ≡ (run_says (thresholds image.now) faulty (bytes_of calls.now) state.old answers.old).number }
    ensures told { out.new ≡ (run_says (thresholds image.now) faulty (bytes_of calls.now) state.old answers.old).out }
    ensures states { state.new ≡ run_state (thresholds image.now) faulty (bytes_of calls.now) state.old answers.old }
    ensures bytes { answers.new ≡ run_answers (thresholds image.now) faulty (bytes_of calls.now) state.old
        answers.old }
{
    capi::thresholds::siren_threshold_run_records(image, faulty, calls, state, answers, out)
}
