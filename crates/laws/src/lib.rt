// Laws of the definitions alone: proofs/.
#![tactic(auto)]
