//! Tests of the fields, of the rows over them and of elimination, each a table of numbers that were worked out by hand
//! or that plain arithmetic judges.
#![tactic(auto)]

#[cfg(test)]
mod changes;
#[cfg(test)]
mod checks;
#[cfg(test)]
mod elimination;
#[cfg(test)]
mod fields;
#[cfg(test)]
mod growing;
#[cfg(test)]
mod lists;
#[cfg(test)]
mod matrices;
#[cfg(test)]
mod packed;
#[cfg(test)]
mod plain;
