// What the fields of an answer's record come from: k, supports and bytes that the calls keep. Laws only, no function.
#![tactic(auto)]
