//! Laws: each of these does nothing, and its contract is the theorem.

ghost use Rattle.lra_certificate_spec.specs.Claims.{CertificatesHold, CertificatesAreInductive, JudgedExactly};
ghost use Rattle.lra_certificate_spec.specs.Claims.{OneCertificate};

/// What a certificate that meets its program says of stores is kept along all paths. If it holds in all runs, the
/// certificate's rows do, no run reaches its empty points, and none of its listed assertions is false.
pub fn certificates_are_inductive()
    ensures { CertificatesAreInductive }
{}

/// Of a text that is a certificate the rows hold at their points in all runs of its program, no run reaches an empty
/// point, and no listed assertion is ever false.
pub fn certificates_hold()
    ensures { CertificatesHold }
{}

/// The lines after the head are accepted exactly if the input is a certificate that meets its program, with its
/// numbers.
pub fn judged_exactly()
    ensures { JudgedExactly }
{}

/// A text is that of at most one certificate that meets its program.
pub fn one_certificate()
    ensures { OneCertificate }
{}
