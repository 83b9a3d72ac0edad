// Sets as masks: definitions in specs/, laws in proofs/.

#![tactic(auto)]
