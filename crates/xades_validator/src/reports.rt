//! Reports.

ghost use Rattle.std.specs.Prelude.{◌≡◌, false, IfOk};
ghost use Rattle.signature_evidence.specs.Report.{fault_report};
ghost use Rattle.signature_evidence.specs.Reporting.{code};
ghost use Rattle.time_texts.specs.Clock.{IsOfYears, clock};

use report_texts::write_fault;
use std::alloc::Global;
use xa_io::{Octs, OutOfMemory};

/// The report on the signature of a document, with its verdict.
#[derive(Drop)]
pub struct Report {
    pub(crate) text: Octs,
    pub(crate) yes: bool,
}

impl Report {
    /// Whether the verdict is yes.
    pub fn verdict(&self) -> bool
        ensures { result ≡ self.now.yes }
    {
        self.yes
    }

    /// Its text, in lines that end with a line feed. The first tells the verdict.
    pub fn text(&self) -> &[u8]
        ensures { result.now ≡ self.now.text }
    {
        self.text.as_slice()
    }

    /// Its text.
    pub fn into_text(self) -> Octs
        ensures { result ≡ self.text }
    {
        self.text
    }
}

/// The report on a document with a fault against its judgement, by the number of its code.
pub(crate) fn report_fault(alloc: Global, now: i64, number: u8) -> Result<Report, OutOfMemory>
    requires { IsOfYears now }
    ensures text { IfOk result (λ report. report.text ≡ fault_report clock now (code number)) }
    ensures verdict { IfOk result (λ report. report.yes ≡ false) }
{
    Ok(Report {
        text: write_fault(alloc, now, number)?,
        yes: false,
    })
}
