// No code: the numbers to hold against, computed from the public entries' definitions.
#![tactic(auto)]
