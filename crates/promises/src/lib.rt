// The theorems over all the rest, in specs/ and proofs/; no code that flies.
#![tactic(auto)]
