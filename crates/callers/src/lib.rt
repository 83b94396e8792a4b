// No code: demand 3 as a program that calls the library from C or Rust sees it.
#![tactic(auto)]
