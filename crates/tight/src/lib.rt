// No code: specs/ says what it is for a contract to allow one result alone, and proofs/ proves it of each public
// function's own contract.
#![tactic(auto)]
