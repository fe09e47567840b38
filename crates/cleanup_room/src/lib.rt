// Laws alone: the graph of a record has the room that cleanup asks, and `clean_non_ref_paths` keeps a graph within the limits of input.
#![tactic(auto)]
