// Sets with thresholds: when a site's sets are met, and what is refused of them. Definitions and laws; the code that reads them stands above.
#![tactic(auto)]
