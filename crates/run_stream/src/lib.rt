// The stream of runs (oracle/README.md, "Streams"), record by record: what programs that play it share.
#![tactic(auto)]

pub mod chance;
pub mod head;
pub mod input;
pub mod side;
