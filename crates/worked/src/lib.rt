// The worked set of the scope paper, proved of the definitions.

#![tactic(auto)]
