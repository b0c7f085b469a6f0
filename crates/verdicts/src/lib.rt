// Shared sites, dispensable sets and intact sites: definitions and laws, and the pair of quorums that the question of shared sites answers. The code that
// searches for them stands above.
#![tactic(auto)]

// Two quorums without a common site.
#[derive(Clone, Copy)]
pub struct Pair {
    pub first: u64,
    pub second: u64,
}
