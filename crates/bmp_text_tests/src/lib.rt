//! Tests of ports, texts, certificates and reports.
#![tactic(auto)]

#[cfg(test)]
mod cert;
#[cfg(test)]
mod compare;
#[cfg(test)]
mod jobs;
#[cfg(test)]
mod ports;
#[cfg(test)]
mod report;
#[cfg(test)]
mod samples;
#[cfg(test)]
mod text;
#[cfg(test)]
mod versions;
