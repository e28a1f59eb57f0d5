//! Laws: each of these does nothing, and its contract is the theorem.

ghost use Rattle.lra_certify_source.specs.Certified.{CertifiedAreCertificates, ManyAreRefused};

/// What is written for a source is a certificate of it that meets its program, with the rows and the proved assertions
/// of the report.
pub fn certified_are_certificates()
    ensures { CertifiedAreCertificates }
{}

/// A source from one of whose points too many paths lead gets that refusal, and no certificate.
pub fn many_are_refused()
    ensures { ManyAreRefused }
{}
