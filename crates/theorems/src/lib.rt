#![tactic(auto)]

// No code: specs/ states what is proved of the definitions in `rules`, demand by demand, and proofs/ proves it.
