// The kept cases that the program test_calls runs: read from standard input, and what came of a call on standard output.
#![tactic(auto)]

pub mod input;
pub mod text;
