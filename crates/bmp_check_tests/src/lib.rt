//! Tests of the check of parts on a graph, and of the calls on sections below it.
#![tactic(auto)]

#[cfg(test)]
mod fixtures;
#[cfg(test)]
mod sections;
#[cfg(test)]
mod verdict;
