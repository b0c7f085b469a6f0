// The two verdicts of a table of thresholds as public calls: each checks image and set itself, in the order image, 10, 16. The image is checked first; the
// rest is asked of its rows.
#![tactic(auto)]

ghost use Rattle.std.specs.Prelude.{◌≡◌};
ghost use Rattle.sets.specs.Groups.{thresholds};
ghost use Rattle.questions.specs.Answers.{shared, intact};

use questions::Pair;
use refusals::Refusal;

// Do every two quorums have a common site?
pub fn shared(image: &[u8]) -> Result<Option<Pair>, Refusal>
    ensures { result ≡ shared (thresholds image.now) }
{
    threshold_image::check(image)?;
    let n = image.len() / 512;
    let mut rows = [0u64; 4032];
    threshold_image::load(image, n, &mut rows);
    verdict_questions::shared_of(&rows[..63 * n], n)
}

// Which sites are intact when those of the set are faulty?
pub fn intact(image: &[u8], faulty: u64) -> Result<u64, Refusal>
    ensures { result ≡ intact (thresholds image.now) faulty }
{
    threshold_image::check(image)?;
    let n = image.len() / 512;
    let mut rows = [0u64; 4032];
    threshold_image::load(image, n, &mut rows);
    verdict_questions::intact_of(&rows[..63 * n], n, faulty)
}
