#![tactic(auto)]

// No code: proofs/ has the laws of the definitions in `rules` that code cites, and specs/ the few words in which they
// are stated. What is proved for its own sake stands in `theorems`, above all code.
