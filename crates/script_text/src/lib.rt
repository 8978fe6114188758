// The texts of a script: the words of a line, and the text of an answer.
#![tactic(auto)]

pub mod answers;
pub mod bits;
pub mod numbers;
pub mod words;
