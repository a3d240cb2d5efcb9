// What loops over lists share: definitions and laws, and no code.
#![tactic(auto)]
