// No code: what a call of the decoder answers and leaves (Annex 8.A.3, document 01), and what a run of calls does, over the definitions of
// `standard` and of the cue line.
#![tactic(auto)]
