// How many products the builder forms: definitions and laws in specs/, proofs in proofs/.

#![tactic(auto)]
