#![tactic(auto)]

// No code: specs/ says what is demanded of any codec, and names the stand-ins of document 01; proofs/ proves that ours
// meets it and that none of them does.
