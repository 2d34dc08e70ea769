//! How many obligations are proved, failed and unknown, and how the check ends.

ghost use Rattle.std.specs.Prelude.{◌≡◌, ◌++◌, count_by, OnOk};
ghost use Rattle.check_report.specs.Totals.{is_proved, is_failed, is_unknown, total_by, ending_by, ending_view};

use itoa::Buffer;
use obligation_check::{Finding, NoMemory};

/// How a check ends. Covers do not count.
#[derive(Clone, Copy, PartialEq, Eq, Debug)]
pub enum Ending {
    /// All obligations are proved.
    AllProved,
    /// None has failed, and some are unknown within the budget.
    SomeUnknown,
    /// Some have failed.
    SomeFailed,
}

/// How many obligations are proved, failed and unknown.
#[derive(Clone, Copy)]
pub(crate) struct Counts {
    pub(crate) proved: usize,
    pub(crate) failed: usize,
    pub(crate) unknown: usize,
}

/// Whether the obligation of the finding is proved.
fn is_proved(finding: &Finding) -> bool
    ensures { result ≡ is_proved finding.now }
{
    matches!(finding, Finding::Holds)
}

/// Whether it failed.
fn is_failed(finding: &Finding) -> bool
    ensures { result ≡ is_failed finding.now }
{
    matches!(finding, Finding::Breaks(_))
}

/// Whether it is unknown.
fn is_unknown(finding: &Finding) -> bool
    ensures { result ≡ is_unknown finding.now }
{
    matches!(finding, Finding::Spent(_))
}

/// How many of the findings are proved.
fn count_proved(findings: &[Finding]) -> usize
    ensures { result ≡ count_by is_proved findings.now }
{
    findings.iter().filter(|finding| is_proved(finding)).count()
}

/// How many failed.
fn count_failed(findings: &[Finding]) -> usize
    ensures { result ≡ count_by is_failed findings.now }
{
    findings.iter().filter(|finding| is_failed(finding)).count()
}

/// How many are unknown.
fn count_unknown(findings: &[Finding]) -> usize
    ensures { result ≡ count_by is_unknown findings.now }
{
    findings
        .iter()
        .filter(|finding| is_unknown(finding))
        .count()
}

/// How many of each there are among what was found of the obligations.
pub(crate) fn count_all(findings: &[Finding]) -> Counts
    ensures proved { result.proved ≡ count_by is_proved findings.now }
    ensures failed { result.failed ≡ count_by is_failed findings.now }
    ensures unknown { result.unknown ≡ count_by is_unknown findings.now }
{
    Counts {
        proved: count_proved(findings),
        failed: count_failed(findings),
        unknown: count_unknown(findings),
    }
}

/// Appends the last line.
pub(crate) fn append_total(out: &mut Vec<u8>, counts: Counts) -> Result<(), NoMemory>
    ensures { OnOk result (out.new.items ≡ out.old.items ++ total_by counts.proved counts.failed counts.unknown) }
{
    let mut buffer = Buffer::new();
    out.extend_from_slice(b"total proved ")?;
    out.extend_from_slice(buffer.format(counts.proved).as_bytes())?;
    out.extend_from_slice(b" failed ")?;
    out.extend_from_slice(buffer.format(counts.failed).as_bytes())?;
    out.extend_from_slice(b" unknown ")?;
    out.extend_from_slice(buffer.format(counts.unknown).as_bytes())?;
    out.push(b'\n')?;
    Ok(())
}

/// How a check with these counts ends.
pub(crate) fn ending_of(counts: Counts) -> Ending
    ensures { ending_view result ≡ ending_by counts.failed counts.unknown }
{
    if counts.failed > 0 {
        Ending::SomeFailed
    } else if counts.unknown > 0 {
        Ending::SomeUnknown
    } else {
        Ending::AllProved
    }
}
