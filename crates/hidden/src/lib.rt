// The bytes on which the supplier's listing of an accepted job must not depend: definitions in specs/, laws in proofs/.

#![tactic(auto)]
