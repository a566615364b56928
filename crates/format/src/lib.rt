// The format, as definitions (specs/) and what is proved of them (proofs/). No code.
#![tactic(auto)]
