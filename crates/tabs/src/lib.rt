// Laws of lists by index alone: proofs/.
#![tactic(auto)]
