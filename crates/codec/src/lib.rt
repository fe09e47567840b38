// Round trips of the graph record: theorems of the definitions, in proofs/RoundTrip.antt. No function.
#![tactic(auto)]
