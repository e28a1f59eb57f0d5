//! From the bytes of a source to its certificate: the analysis over polyhedra without narrowing, and the text of a
//! certificate that has its rows and its proved assertions; or the one refusal.
#![tactic(auto)]

mod certify_report;
mod extraction;
mod laws;
mod refusals;
mod settings;

pub use certify_report::{CertifiedReport, certify_source};
pub use laws::{certified_are_certificates, many_are_refused};
pub use lra_certify::{GREATEST_CERTIFICATE, StrainedAt, VerifyError, VerifyRefusal, verify};
pub use refusals::{CertifyError, CertifyRefusal};
pub use settings::certify_options;
