// The library for C and Rust: each public function under a name of its own, thin, with no condition on its caller.
// A slice passes as a pointer and a length, an array as a pointer. What a call says goes into six numbers (`said`).
#![tactic(auto)]

mod boxes;
mod budget;
mod files;
mod printed;
mod said;
mod trees;
