// One text or JSON, one report; one answer for each input that is to be a certificate; one refusal of a source that is
// to be gone back over.
ghost use Rattle.lra_commands.specs.CertificateAnswer.{EachCertificateAnswer};
ghost use Rattle.lra_commands.specs.{BackAnswer.OneBackRefusal, SourceAnswer.OneWrittenReport};

/// Two reports that a source must get under one list of options and that are written alike, in one format, are the
/// same report.
pub fn one_written_report()
    ensures { OneWrittenReport }
{
    lra_command_answers::one_answer();
}

/// Each input that is to be a certificate must get one text and one status.
pub fn each_certificate_answer()
    ensures { EachCertificateAnswer }
{}

/// A source that isn't gone back over from an assertion is refused in one way.
pub fn one_back_refusal()
    ensures { OneBackRefusal }
{}
