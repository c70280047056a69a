ghost use Rattle.std.specs.Prelude.{◌≡◌};
ghost use Rattle.plan_certificate.specs.declared.cert.TheConstants.{MAX_LINES, MOST_CERTIFICATE};
ghost use Rattle.plan_certificate.specs.Laws.{CertificateReadIsWritten, CertificateWrittenIsRead, DecidedIsOf, PrintedIsRead, StartIsStated};

/// The laws that join text and reading: what is read from a text is what that text writes, and a text that writes a
/// certificate over a forest is read as that certificate. So a text writes at most one certificate, and a certificate has
/// one text. The start of a certificate is the one that its text states, whatever the names of the entries.
pub fn certificates_are_read_back()
    ensures found { CertificateReadIsWritten }
    ensures only { CertificateWrittenIsRead }
    ensures start { StartIsStated }
{}

/// The limits of certificates as numbers; that of their wake-ups is in [`limit_law`](plan_rule::limit_law). It does nothing.
pub fn limits_of_certificates()
    ensures lines { MAX_LINES ≡ 100000 }
    ensures bytes { MOST_CERTIFICATE ≡ 16777216 }
{}

/// The laws that join a planner's decision and reading: a decision for a forest has the indices of its entries, so that it
/// can be printed, and what is printed of it is read as what it claims.
pub fn decisions_are_read_back()
    ensures indices { DecidedIsOf }
    ensures found { PrintedIsRead }
{}
