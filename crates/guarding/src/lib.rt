// What a heartbeat comes to in a chain that is guarded, for every number of monitors (document 02, L8), and that a whole one is its parts in turn. No code: all
// of it is in specs/ and proofs/.
#![tactic(auto)]
