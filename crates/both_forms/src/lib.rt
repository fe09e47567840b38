// A graph is judged alike in both forms of its record, and every call answers alike: theorems of the definitions, in proofs/Theorem.antt. No function.
#![tactic(auto)]
