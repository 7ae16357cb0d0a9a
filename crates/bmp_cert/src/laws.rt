//! The laws of the texts, each the contract of a function without a body.
ghost use Rattle.std.specs.Prelude.{◌≡◌};
ghost use Rattle.bmp_cert.specs.JobGrammar.{job_text, IsWellFormedJob};
ghost use Rattle.bmp_cert.specs.CertGrammar.{cert_text, IsWellFormed};
ghost use Rattle.bmp_cert.specs.TextEnds.{TextsEnd};
ghost use Rattle.bmp_cert.specs.declared.job.Job.{Job};
ghost use Rattle.bmp_cert.specs.declared.cert.Cert.{Cert};

/// Two well formed jobs with one text are equal.
pub fn one_job()
    ensures { (a b : Job) → IsWellFormedJob a → IsWellFormedJob b → job_text a ≡ job_text b → a ≡ b }
{}

/// Two well formed certificates with one text are equal.
pub fn one_text()
    ensures { (a b : Cert) → IsWellFormed a → IsWellFormed b → cert_text a ≡ cert_text b → a ≡ b }
{}

/// No text of a job begins another, and no text of a certificate; and the last line of each, alone, is `end`. So texts
/// that stand one behind the other are told apart by their lines.
pub fn texts_end()
    ensures { TextsEnd }
{}
