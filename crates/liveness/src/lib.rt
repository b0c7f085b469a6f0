// That a vote ends: what one site has confirmed reaches every intact site, if the list of calls is complete. No code: specs/Liveness.antt has the statements.
#![tactic(auto)]
