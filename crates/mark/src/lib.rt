// The mark of a site for the siren register.
#![tactic(auto)]

ghost use Rattle.std.specs.Prelude.{◌≡◌};
ghost use Rattle.mark.specs.Mark.{mark};

// 1 (drill) exactly if the site has confirmed drill and not live, else 0 (live); 11 for a site above 63.
pub fn mark(site: u64, drill: u64, live: u64) -> u8
    ensures { result ≡ mark site drill live }
{
    if 63 < site {
        return 11;
    }
    if !masks::has(drill, site) {
        return 0;
    }
    if !masks::has(live, site) {
        return 1;
    }
    0
}
