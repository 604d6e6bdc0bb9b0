// What bits are: definitions in specs/ and their laws in proofs/, with no code of its own. Whoever takes, counts or
// puts bits cites them.
#![tactic(auto)]
