// The archive that C and Rust link, libmoatburdock.a: every function of include/moatburdock.h, under its name there.
#![tactic(auto)]

mod interface;
mod planning;
mod reader;
