// The demands as theorems, and the bytes laid on the bench: no code, only specs/ and proofs/.
#![tactic(auto)]
