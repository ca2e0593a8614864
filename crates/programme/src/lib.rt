// What programs that read a programme share: numbers and names among their arguments, the files that those name, and rows of samples between files and
// memory. What the system does is not promised, only what is done with its answers.
#![tactic(auto)]

pub mod arguments;
pub mod files;
pub mod rows;
