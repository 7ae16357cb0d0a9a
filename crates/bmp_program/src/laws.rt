//! The laws of the reports, each the contract of a function without a body.
ghost use Rattle.bmp_program.specs.Reports.{HasOneStatus};

/// Words and input are reported with one status at most.
pub fn one_status()
    ensures { HasOneStatus }
{}
