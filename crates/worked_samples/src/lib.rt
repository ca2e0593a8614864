// No code: document 01's table of samples, with a single claim over all of its rows.
#![tactic(auto)]
