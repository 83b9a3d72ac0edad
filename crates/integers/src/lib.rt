// Mathematics only: definitions in specs/, laws in proofs/.

#![tactic(auto)]
