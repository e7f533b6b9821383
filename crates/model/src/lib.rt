// No code: what every rule, request and list of calls is (specs/), and the promises about it (proofs/).
#![tactic(auto)]
