// What the desk says on standard error of a list of calls that may be none.
#![tactic(auto)]

ghost use Rattle.std.specs.Prelude.{true, ◌≡◌};
ghost use Rattle.strange_calls.specs.Strange.{mostly_strange};

// Says of a list of which most calls answer 11 that it may be none.
fn warn(rt: &HostRuntime, call: &[u8], list: &[u8], sites: u64)
    requires { mostly_strange sites list.now ≡ true }
{
    files::complain(rt, call);
    files::complain(
        rt,
        b": most of these calls name a site, kind or side that there is not (11); this may be no list of calls\n",
    );
}

// Doubts the list of a run, given the first letter of what was printed: the lines of a run begin with `sites`, a refusal with `refused`.
pub fn doubt(rt: &HostRuntime, call: &[u8], image: &[u8], list: &[u8], first: u8) {
    if first == b'r' {
        return;
    }
    let sites = (image.len() / 512) as u64;
    if strange_calls::mostly_strange(list, sites) {
        warn(rt, call, list, sites);
    }
}

// Doubts the list that a journal keeps.
pub fn doubt_kept(rt: &HostRuntime, call: &[u8], image: &[u8], journal: &[u8], first: u8) {
    let mut calls = [0u8; 16384];
    if let Ok(n) = journal::list(journal, &mut calls) {
        doubt(rt, call, image, &calls[..n as usize], first);
    }
}
