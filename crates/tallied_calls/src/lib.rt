// A public call that is its core and then `tallies::count_call`: one proof for all calls with the same kinds of parameters. Laws only, no
// function.
#![tactic(auto)]
