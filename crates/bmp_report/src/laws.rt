//! The laws of the lines, each the contract of a function without a body.
ghost use Rattle.bmp_report.specs.CompareText.{AgreesIsAgreement, RanksHaveComparison};
ghost use Rattle.bmp_report.specs.RankLines.{RanksHaveLines};
ghost use Rattle.bmp_report.specs.SampleJobs.{SampleJobsAreFormed};
ghost use Rattle.bmp_report.specs.SummaryText.{SummaryOfRanks};
ghost use Rattle.bmp_report.specs.TableText.{KlTextHasAll};

/// The lines of a certificate's ranks are those of its own numbers of generators.
pub fn ranks_have_lines()
    ensures { RanksHaveLines }
{}

/// The text of a table has all coefficients that aren't 0: the exponents are from 0 to 36.
pub fn kl_text_has_all()
    ensures { KlTextHasAll }
{}

/// Each job of `sample` has a text.
pub fn sample_jobs_are_formed()
    ensures { SampleJobsAreFormed }
{}

/// The ranks of a certificate of a job have the summary of its own numbers of generators.
pub fn summary_of_ranks()
    ensures { SummaryOfRanks }
{}

/// A vertex is counted as one that agrees exactly where each of its counts is the coefficient beside it.
pub fn agrees_is_agreement()
    ensures { AgreesIsAgreement }
{}

/// The ranks of a certificate are compared with a table as its own numbers of generators.
pub fn ranks_have_comparison()
    ensures { RanksHaveComparison }
{}
