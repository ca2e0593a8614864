// No code: definitions and laws on signed whole numbers, which the other crates cite.
#![tactic(auto)]
