ghost use Rattle.std.specs.Prelude.{◌≡◌, List, ℕ, IfOk};
ghost use Rattle.plan_certificate.specs.Answers.{GivesOrCertFault};
ghost use Rattle.plan_certificate.specs.CertificateText.{CanBeWritten, WritesCertificate};
ghost use Rattle.plan_certificate.specs.Lines.{lines};
ghost use Rattle.plan_certificate.specs.Reading.{version_of, header_of, start_of, unkeepable_of, body_of, certificate_of, text_start};
ghost use Rattle.plan_certificate.specs.declared.cert.Version.{Version};

use crate::cert::{Body, Cert, Version};
use crate::fault::CertFault;
use crate::lines::{line_at, number_at};
use crate::run_line::{entry_named, nothing_behind};
use crate::run_lines::runs_of;
use base_moment::Moment;
use base_words::{begins, cut, three_words, two_words};
use plan_forest::{Forest, Listed};
use std::alloc::Global;

/// The certificate that a text writes over a forest, in version 1 or 2. A line `wake` of version 1 is a run of one
/// wake-up.
///
/// # Errors
///
/// The fault of the first line at fault, as [`CertFault`] says, or `OutOfMemory` where a growth was refused. The laws of
/// [`certificates_are_read_back`](crate::certificates_are_read_back) say that each certificate's text is read as it.
pub fn read(alloc: Global, forest: &Forest, text: &[u8]) -> Result<Cert, CertFault>
    ensures found { IfOk result (λ c. WritesCertificate forest.now.entries text.now c) }
    ensures writable { IfOk result (λ c. CanBeWritten forest.now.entries c.body) }
    ensures exact { GivesOrCertFault (λ c. c) result (certificate_of forest.now.entries text.now) }
{
    read_exactly(alloc, forest, text)
}

/// The start that a text states in its second line, whatever follows that: that of its certificate, if it writes one over some
/// forest.
///
/// # Errors
///
/// The fault of the first or of the second line, as [`read`] tells it.
#[tactic(auto, unfolding(crate::specs::Reading::text_start))]
pub fn read_start(text: &[u8]) -> Result<Moment, CertFault>
    ensures { GivesOrCertFault (λ start. start) result (text_start text.now) }
{
    let (_, rest) = header_of(text)?;
    let (second, _) = line_at(2, rest)?;
    start_of(second)
}

#[tactic(auto, unfolding(crate::specs::Reading::certificate_of))]
fn read_exactly(alloc: Global, forest: &Forest, text: &[u8]) -> Result<Cert, CertFault>
    ensures { GivesOrCertFault (λ c. c) result (certificate_of forest.now.entries text.now) }
{
    let (version, rest) = header_of(text)?;
    let (second, rest) = line_at(2, rest)?;
    let start = start_of(second)?;
    let body = body_of(alloc, forest, version, rest)?;
    Ok(Cert {
        version,
        start,
        body,
    })
}

/// The version that the first line says, and what follows that line.
fn header_of(text: &[u8]) -> Result<(Version, &[u8]), CertFault>
    ensures { GivesOrCertFault {Y = Version × List (List ℕ)} (λ p. (p.0, lines p.1.now)) result (header_of (lines text.now)) }
{
    match cut(text, b'\n') {
        Some((line, rest)) => Ok((version_of(line)?, rest)),
        None => Err(CertFault::BadHeader),
    }
}

#[tactic(auto, unfolding(crate::specs::Reading::version_of))]
fn version_of(line: &[u8]) -> Result<Version, CertFault>
    ensures { result ≡ version_of line.now }
{
    if line == b"leasekeep-plan 1".as_slice() {
        Ok(Version::One)
    } else if line == b"leasekeep-plan 2".as_slice() {
        Ok(Version::Two)
    } else {
        Err(CertFault::BadHeader)
    }
}

/// The moment of the second line, `start N`.
#[tactic(auto, unfolding(crate::specs::Reading::start_of, crate::specs::Lines::two_words))]
fn start_of(line: &[u8]) -> Result<Moment, CertFault>
    ensures { GivesOrCertFault (λ start. start) result (start_of line.now) }
{
    if !begins(line, b"start") {
        return Err(CertFault::BadLine(2));
    }
    let (_, word) = two_words(line).ok_or(CertFault::BadLine(2))?;
    let seconds = number_at(2, word)?;
    Moment::new(seconds).ok_or(CertFault::BadNumber(2))
}

/// What the lines after `start` say.
#[tactic(auto, unfolding(crate::specs::Reading::body_of))]
fn body_of(alloc: Global, forest: &Forest, version: Version, text: &[u8]) -> Result<Body, CertFault>
    ensures { GivesOrCertFault (λ body. body) result (body_of version forest.now.entries (lines text.now)) }
{
    let (line, rest) = line_at(3, text)?;
    if begins(line, b"unkeepable") {
        let body = unkeepable_of(forest, line)?;
        nothing_behind(rest)?;
        return Ok(body);
    }
    let runs = runs_of(alloc, forest, version, text)?;
    Ok(Body::Runs(Listed::from_vec(runs)))
}

/// The third line, `unkeepable ENTRY NEEDED`.
#[tactic(auto, unfolding(crate::specs::Reading::unkeepable_of, crate::specs::Lines::three_words))]
fn unkeepable_of(forest: &Forest, line: &[u8]) -> Result<Body, CertFault>
    ensures { GivesOrCertFault (λ body. body) result (unkeepable_of forest.now.entries line.now) }
{
    let (_, entry, needed) = three_words(line).ok_or(CertFault::BadLine(3))?;
    let entry = entry_named(forest, 3, entry)?;
    let needed = entry_named(forest, 3, needed)?;
    Ok(Body::Unkeepable { entry, needed })
}
