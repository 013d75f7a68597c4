// The rules of a slot, said of the list of choices alone, and the theorems that a run keeps them; no
// code that flies.
#![tactic(auto)]
