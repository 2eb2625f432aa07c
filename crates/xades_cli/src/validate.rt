// Signatures that are judged.
ghost use Rattle.std.specs.Prelude.{◌≡◌, ◌≤◌, length, map, Ok, IfOk};
ghost use Rattle.document_model.specs.Documents.{document_of};
ghost use Rattle.policy_rules.specs.View.{rules};
ghost use Rattle.qualifying_props.specs.Whole.{is_whole};
ghost use Rattle.reference_chains.specs.HandedIn.{handed_in};
ghost use Rattle.signature_cases.specs.Handed.{IsMaterial};
ghost use Rattle.signature_evidence.specs.Judging.{IsYesBy, judged};
ghost use Rattle.signature_evidence.specs.Material.{material_of};
ghost use Rattle.time_texts.specs.Clock.{IsOfYears};
ghost use Rattle.whole_files.specs.Wants.{AreFor, held_of};
ghost use Rattle.command_words.specs.Validating.{IsValidatable, validate_wants, validates_of};
ghost use Rattle.xades_cli.specs.Computed.{IsResultOf};
ghost use Rattle.xades_cli.specs.Validate.{AreJudged, AreWhole, IsJudged, IsJudgementOf, IsReportedBy, IsValidateOutcome, IsYes, found_of, is_more, more_of};

use crate::answers::Answer;
use crate::handing::hand_in;
use crate::prepare::{BadFile, policy_by, stop_by_file};
use crate::stop::{Refusal, Stop};
use command_words::Validation;
use item_contents::{MaterialFault, split_material};
use policy_rules::Policy;
use references::Externals;
use std::alloc::Global;
use whole_files::{File, Role, document_of, policy_of};
use xa_io::{Octs, OutOfMemory};
use xades_validator::{ValidateFault, validate};

fn is_more(role: Role) -> bool
    ensures { result ≡ is_more role }
{
    match role {
        Role::More => true,
        _ => false,
    }
}

// A file of further certificates and revocation lists, where it isn't whole.
fn bad_in<'f>(alloc: Global, file: &'f File<'_>) -> Result<Option<BadFile<'f>>, OutOfMemory>
    ensures { IfOk result (IsJudged (held_of file.now)) }
{
    if !is_more(file.role) {
        return Ok(None);
    }
    match split_material(alloc, file.bytes.as_slice()) {
        Ok(_) => Ok(None),
        Err(MaterialFault::NotWhole { at }) => Ok(Some(BadFile {
            name: file.name,
            at: at as u64,
        })),
        Err(MaterialFault::OutOfMemory) => Err(OutOfMemory),
    }
}

// The first such file that isn't whole.
fn first_bad<'f>(alloc: Global, files: &'f [File<'_>]) -> Result<Option<BadFile<'f>>, OutOfMemory>
    ensures { IfOk result (AreJudged (map held_of files.now)) }
{
    let mut rest = files;
    'files: loop {
        match rest {
            [file, others @ ..] => {
                match bad_in(alloc, file) {
                    Ok(None) => {}
                    Ok(Some(bad)) => return Ok(Some(bad)),
                    Err(OutOfMemory) => return Err(OutOfMemory),
                }
                rest = others;
            }
            [] => return Ok(None),
        }
    }
}

// The bytes of such files, one behind the other.
fn join_more(alloc: Global, files: &[File<'_>]) -> Result<Octs, OutOfMemory>
    ensures { IfOk result (λ octets. octets ≡ more_of (map held_of files.now)) }
{
    let mut out = Octs::new(alloc);
    let mut rest = files;
    'files: loop {
        match rest {
            [file, others @ ..] => {
                if is_more(file.role) {
                    out.push_all(file.bytes.as_slice())?;
                }
                rest = others;
            }
            [] => return Ok(out),
        }
    }
}

// The report on the signature of a document.
fn write_report(
    alloc: Global,
    document: &[u8],
    policy: &Policy,
    at: i64,
    externals: &Externals,
    more: &[u8],
) -> Result<Answer, Stop>
    requires document { length document.now ≤ 16777216 }
    requires moment { IsOfYears at }
    requires more { IsMaterial more.now }
    ensures { let found = judged is_whole (handed_in externals.now) (document_of document.now) (material_of more.now) in
        IsResultOf (IsJudgementOf (rules policy.now) found at document.now) (λ text. IsYesBy (rules policy.now) found at) result }
{
    match validate(alloc, document, policy, at, externals, more) {
        Ok(report) => {
            let yes = report.verdict();
            Ok(Answer::Report {
                text: report.into_text(),
                yes,
            })
        }
        Err(ValidateFault::BadDocument(fault)) => Err(Stop::Refusal(Refusal::Document {
            fault,
            size: document.len(),
        })),
        Err(ValidateFault::OutOfMemory) => Err(Stop::OutOfMemory),
    }
}

// The report, where all files of certificates and revocation lists are whole.
fn join_and_write(
    alloc: Global,
    asked: &Validation<'_>,
    policy: &Policy,
    mut files: Vec<File<'_>>,
) -> Result<Answer, Stop>
    requires moment { IsValidatable (validates_of asked.now) }
    requires read { AreFor (validate_wants (validates_of asked.now)) (map held_of files.items) }
    requires whole { AreWhole (map held_of files.items) }
    ensures { let held = map held_of files.entry.items in let at = (validates_of asked.now).at in
        IsResultOf (IsReportedBy (Ok (rules policy.now)) at held) (λ text. IsYesBy (rules policy.now) (found_of held) at) result }
{
    let more = join_more(alloc, files.as_slice())?;
    let document = files.remove(0);
    let externals = hand_in(alloc, files)?;
    write_report(
        alloc,
        document.bytes.as_slice(),
        policy,
        asked.at,
        &externals,
        more.as_slice(),
    )
}

// The report by a policy.
fn judge_and_write(
    alloc: Global,
    asked: &Validation<'_>,
    policy: &Policy,
    files: Vec<File<'_>>,
) -> Result<Answer, Stop>
    requires moment { IsValidatable (validates_of asked.now) }
    requires read { AreFor (validate_wants (validates_of asked.now)) (map held_of files.items) }
    ensures { let held = map held_of files.entry.items in let at = (validates_of asked.now).at in
        IsResultOf (IsReportedBy (Ok (rules policy.now)) at held) (λ text. IsYesBy (rules policy.now) (found_of held) at) result }
{
    match first_bad(alloc, files.as_slice()) {
        Ok(None) => {}
        Ok(Some(bad)) => return Err(stop_by_file(alloc, document_of(files.as_slice()), bad)),
        Err(OutOfMemory) => return Err(Stop::OutOfMemory),
    }
    join_and_write(alloc, asked, policy, files)
}

/// The report on the signature of a document; or why it is refused, by the policy, the document or a file of certificates and revocation lists,
/// in this order.
pub fn validate_document(
    alloc: Global,
    asked: &Validation<'_>,
    files: Vec<File<'_>>,
) -> Result<Answer, Stop>
    requires moment { IsValidatable (validates_of asked.now) }
    requires read { AreFor (validate_wants (validates_of asked.now)) (map held_of files.items) }
    ensures { let held = map held_of files.entry.items in let at = (validates_of asked.now).at in
        IsResultOf (IsValidateOutcome at held) (λ text. IsYes at held) result }
{
    let policy = match policy_by(alloc, policy_of(files.as_slice())) {
        Ok(policy) => policy,
        Err(stop) => return Err(stop),
    };
    judge_and_write(alloc, asked, &policy, files)
}
