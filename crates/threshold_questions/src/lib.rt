// The set questions of a table of thresholds as public calls, but for the two verdicts: each checks image, set and site itself, in the order image, 10, 11.
// The image is checked first; the rest is asked of its rows.
#![tactic(auto)]

ghost use Rattle.std.specs.Prelude.{◌≡◌};
ghost use Rattle.sets.specs.Groups.{thresholds};
ghost use Rattle.questions.specs.Answers.{quorum, largest, blocks};

use questions::SetLeft;
use refusals::Refusal;

// Is the set a quorum?
pub fn quorum(image: &[u8], set: u64) -> Result<bool, Refusal>
    ensures { result ≡ quorum (thresholds image.now) set }
{
    threshold_image::check(image)?;
    let n = image.len() / 512;
    let mut rows = [0u64; 4032];
    threshold_image::load(image, n, &mut rows);
    questions::quorum_of(&rows[..63 * n], n, set)
}

// The largest quorum inside the set.
pub fn largest(image: &[u8], set: u64) -> Result<SetLeft, Refusal>
    ensures { result ≡ largest (thresholds image.now) set }
{
    threshold_image::check(image)?;
    let n = image.len() / 512;
    let mut rows = [0u64; 4032];
    threshold_image::load(image, n, &mut rows);
    questions::largest_of(&rows[..63 * n], n, set)
}

// Does the set block the site?
pub fn blocks(image: &[u8], set: u64, site: u64) -> Result<bool, Refusal>
    ensures { result ≡ blocks (thresholds image.now) set site }
{
    threshold_image::check(image)?;
    let n = image.len() / 512;
    let mut rows = [0u64; 4032];
    threshold_image::load(image, n, &mut rows);
    questions::blocks_of(&rows[..63 * n], n, set, site)
}
