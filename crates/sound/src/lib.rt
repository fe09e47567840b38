// What the refusals 6 and 7 mean, and what an accepted record's graph is: theorems of the definitions, in proofs/Accepted.antt. No function.
#![tactic(auto)]
