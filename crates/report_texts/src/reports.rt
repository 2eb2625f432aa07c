//! Reports as texts.

ghost use Rattle.std.specs.Prelude.{◌≡◌, ◌++◌, OnOk, IfOk};
ghost use Rattle.signature_evidence.specs.Report.{fault_report};
ghost use Rattle.signature_evidence.specs.Reporting.{code};
ghost use Rattle.time_texts.specs.Clock.{IsOfYears, clock};
ghost use Rattle.report_texts.specs.Facts.{AreTimed, shown};
ghost use Rattle.report_texts.specs.Texts.{head_of, signed_of, times_of, text_of};

use crate::facts::Facts;
use crate::lines::{
    coded, put_certificate, put_line, put_objects, put_references, put_tokens, put_value,
};
use crate::words::{level_word, order_word, verdict_word, walk_word};
use std::alloc::Global;
use time_texts::clock;
use xa_io::{Octs, OutOfMemory};

// Appends the verdict, the moment and the level.
fn put_head(out: &mut Octs, facts: &Facts) -> Result<(), OutOfMemory>
    requires { AreTimed (shown facts.now) }
    ensures { OnOk result (out.new ≡ out.old ++ head_of (shown facts.now)) }
{
    put_line(out, b"verdict:", &[verdict_word(facts.is_yes())])?;
    put_line(out, b"moment:", &[&clock(facts.moment)])?;
    put_line(out, b"level:", &[level_word(facts.level)])
}

// Appends what is said of the References, the certificate and the value.
fn put_signed(alloc: Global, out: &mut Octs, facts: &Facts) -> Result<(), OutOfMemory>
    requires { AreTimed (shown facts.now) }
    ensures { OnOk result (out.new ≡ out.old ++ signed_of (shown facts.now)) }
{
    put_references(alloc, out, &facts.references)?;
    put_certificate(alloc, out, &facts.certificate)?;
    put_value(out, &facts.value)?;
    put_line(out, b"walk:", &[walk_word(facts.walk)])
}

// Appends what is said of the time-stamps, the certificates and the revocation lists.
fn put_times(alloc: Global, out: &mut Octs, facts: &Facts) -> Result<(), OutOfMemory>
    requires { AreTimed (shown facts.now) }
    ensures { OnOk result (out.new ≡ out.old ++ times_of (shown facts.now)) }
{
    put_tokens(alloc, out, &facts.tokens)?;
    put_line(out, b"order:", &[order_word(facts.in_order)])?;
    put_objects(alloc, out, &facts.objects)
}

/// The report on a signature. All its times are of the years 0000 to 9999.
///
/// Err: memory could not be had.
pub fn write_report(alloc: Global, facts: &Facts) -> Result<Octs, OutOfMemory>
    requires { AreTimed (shown facts.now) }
    ensures { IfOk result (λ text. text ≡ text_of (shown facts.now)) }
{
    let mut out = Octs::new(alloc);
    put_head(&mut out, facts)?;
    put_signed(alloc, &mut out, facts)?;
    put_times(alloc, &mut out, facts)?;
    Ok(out)
}

/// The report on a document that shows no signature to be judged, by the number of the code of its fault. The moment is in seconds since
/// 1970, of the years 0000 to 9999.
///
/// Err: memory could not be had.
pub fn write_fault(alloc: Global, moment: i64, number: u8) -> Result<Octs, OutOfMemory>
    requires { IsOfYears moment }
    ensures { IfOk result (λ text. text ≡ fault_report clock moment (code number)) }
{
    let code = coded(alloc, number)?;
    let mut out = Octs::new(alloc);
    out.push_all(b"verdict: no\n")?;
    put_line(&mut out, b"moment:", &[&clock(moment)])?;
    put_line(&mut out, b"fault:", &[code.as_slice()])?;
    Ok(out)
}
