// No code: definitions and laws on lists, for loops over slices and for parts of flat memory, which the other crates cite.
#![tactic(auto)]
