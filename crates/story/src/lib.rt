// What the crates below add up to: the three demands, each a theorem in a file of its own (proofs/Demand1, Demand2 and Demand3), and
// that every promise leaves one outcome (proofs/OneOutcome). No code: all of it is in specs/ and proofs/.
#![tactic(auto)]
