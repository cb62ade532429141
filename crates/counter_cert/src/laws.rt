//! Laws of counter certificates, for callers that cite them. None of these functions has code.

ghost use Rattle.counter_cert.specs.Laws.{CertificatesMakeValid};

/// A question that has a certificate is valid: no infinite trace over the ports breaks it.
pub fn certificates_make_valid()
    ensures { CertificatesMakeValid }
{
    // a law, no code runs
    port_types::values_by_kind();
}
