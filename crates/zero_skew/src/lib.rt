// The mathematics of clock trees without skew: definitions and laws, and no code.
#![tactic(auto)]
