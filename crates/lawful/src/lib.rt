// Lawful and full timetables, and the theorem that a list is admitted exactly if it has one, and is
// then never short in window order; no code that flies.
#![tactic(auto)]
