// No code: how flat lists of floats hold complex numbers. Runs of one channel, the real parts first and the imaginary parts behind them, and windows of
// such a run that hold a history; rows of QMF bands and kept coefficients, with the parts side by side; lanes, four channels side by side.
#![tactic(auto)]
