// Document 01's table of checked examples, proved about the definitions: no code.
#![tactic(auto)]
