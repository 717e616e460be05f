// General definitions and facts on numbers and lists that the kit lacks. No code: all of it is in specs/ and proofs/.
#![tactic(auto)]
