//! Tests that cross crates: the top call on whole texts, words, sources and sinks.
#![tactic(auto)]

#[cfg(test)]
mod a3;
#[cfg(test)]
mod builds;
#[cfg(test)]
mod checks;
#[cfg(test)]
mod faults;
#[cfg(test)]
mod inputs;
#[cfg(test)]
mod jobs;
#[cfg(test)]
mod runs;
#[cfg(test)]
mod tables;
#[cfg(test)]
mod texts;
#[cfg(test)]
mod words;
