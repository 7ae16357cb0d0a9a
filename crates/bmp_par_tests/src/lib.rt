//! Tests of tasks and pieces, and of whole builds and checks by several workers: who passes the gate, that two threads
//! are at work at once, and what comes of it by any number of workers.
#![tactic(auto)]

#[cfg(test)]
mod builds;
#[cfg(test)]
mod checks;
#[cfg(test)]
mod gates;
#[cfg(test)]
mod pieces;
#[cfg(test)]
mod runs;
#[cfg(test)]
mod tasks;
