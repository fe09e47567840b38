// Laws only: all linear chains joined in one pass, and that this is what joining one after another makes.
#![tactic(auto)]
