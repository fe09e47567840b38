// What is written is read again: laws of written records. No function.
#![tactic(auto)]
