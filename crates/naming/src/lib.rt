// How kinds are named, which names the catalogue has, and what each of them means: as definitions (specs/) and what is proved of them (proofs/). No code.
#![tactic(auto)]
