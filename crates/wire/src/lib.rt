// The order on the wire and the windows. No code: all of it is in specs/ and proofs/.
#![tactic(auto)]
