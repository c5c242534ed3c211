// No code: the owner's demands as theorems over the public entries' definitions.
#![tactic(auto)]
