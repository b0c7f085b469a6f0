// The run of a list of calls given as records, over a table of thresholds.
#![tactic(auto)]

ghost use Rattle.std.specs.Prelude.{◌≡◌, length};
ghost use Rattle.packing.specs.Pack.{bytes_of};
ghost use Rattle.records.specs.Inner.{TableEnded};
ghost use Rattle.run.specs.Run.{ran, state_into, answers_into};
ghost use Rattle.sets.specs.Groups.{thresholds};

use packing::Call;
use refusals::Refusal;

// The run of n calls that stand packed: the image is checked first; the rest is asked of its rows.
fn run_packed(
    image: &[u8],
    faulty: u64,
    room: &[u8; 16384],
    n: usize,
    state: &mut [u64],
    answers: &mut [u8],
) -> Result<u64, Refusal>
    ensures { TableEnded (thresholds image.now) faulty room.now n state.old answers.old
        result state.new answers.new }
{
    threshold_image::check(image)?;
    let sites = image.len() / 512;
    let mut rows = [0u64; 4032];
    threshold_image::load(image, sites, &mut rows);
    records::run_packed_of(&rows[..63 * sites], sites, faulty, room, n, state, answers)
}

// The run of a list of calls: equal in everything to the run of its bytes.
pub fn run_records(
    image: &[u8],
    faulty: u64,
    calls: &[Call],
    state: &mut [u64],
    answers: &mut [u8],
) -> Result<u64, Refusal>
    ensures answer { result ≡ ran (thresholds image.now) faulty (bytes_of calls.now) (length state.old) (length answers.old) }
    ensures states { state.new ≡ state_into result (thresholds image.now) faulty (bytes_of calls.now) state.old }
    ensures bytes { answers.new ≡ answers_into result (thresholds image.now) faulty (bytes_of calls.now) answers.old }
{
    let mut room = [0u8; 16384];
    packing::pack(calls, &mut room);
    run_packed(image, faulty, &room, calls.len(), state, answers)
}
