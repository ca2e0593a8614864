// No code: the rule of a table of whole numbers, and how one test over the whole table proves it.
#![tactic(auto)]
