// Signatures that are prepared.
ghost use Rattle.std.specs.Prelude.{◌≡◌, ◌≤◌, length, map, Err, IfErr, IfOk, None, Ok};
ghost use Rattle.std.specs.Option.{option_map};
ghost use Rattle.document_model.specs.Documents.{fault};
ghost use Rattle.policy_rules.specs.Rules.{Rules};
ghost use Rattle.policy_rules.specs.Text as texts;
ghost use Rattle.policy_rules.specs.View.{rules};
ghost use Rattle.prepared_documents.specs.Judged.{AreHanded};
ghost use Rattle.reference_chains.specs.HandedIn.{handed_in};
ghost use Rattle.whole_files.specs.Wants.{AreFor, held_of};
ghost use Rattle.augmenter.specs.Preparing.{IsReady};
ghost use Rattle.xades_cli.specs.Outcomes.{Outcome, IsOf, RefusesData};
ghost use Rattle.xades_cli.specs.Prepare.{IsPrepared, IsPreparedOf, TextSays, bad_certificate, bad_in, bad_seen, by_rules, draft_outcome, prepare_outcome};
ghost use Rattle.xades_cli.specs.Stages.{by_policy, unless_faulty};
ghost use Rattle.command_words.specs.Preparing.{IsPreparable, prepare_wants, prepares_of};

use crate::answers::Answer;
use crate::documents::read_document;
use crate::drafting::draft_by;
use crate::handing::hand_in;
use crate::stop::{Refusal, Stop};
use augmenter::{Draft, Refusal as Refused, prepare};
use command_words::Preparation;
use policy_rules::{Policy, PolicyFault, read_policy};
use references::Externals;
use std::alloc::Global;
use whole_files::{File, document_of, policy_of};
use x509_certs::read_certificate;
use xa_io::{Name, OutOfMemory};

// A file that isn't one whole certificate: its name, and the place of the first bad element.
#[derive(Clone, Copy)]
pub(crate) struct BadFile<'f> {
    pub(crate) name: &'f str,
    pub(crate) at: u64,
}

// The policy of a text, or why it is none.
pub(crate) fn policy_by(alloc: Global, text: &[u8]) -> Result<Policy, Stop>
    ensures ok { IfOk result (λ policy. texts.policy_of text.now ≡ Ok (rules policy)) }
    ensures err { (later : Rules → Outcome) → IfErr result (λ stop. IsOf (by_policy (texts.policy_of text.now) later) (Err stop)) }
{
    match read_policy(alloc, text) {
        Ok(policy) => Ok(policy),
        Err(PolicyFault::OutOfMemory) => Err(Stop::OutOfMemory),
        Err(fault) => Err(Stop::Refusal(Refusal::Policy(fault))),
    }
}

// A file that is a certificate, where it isn't one whole certificate.
fn bad_in<'f>(file: &'f File<'_>) -> Option<BadFile<'f>>
    ensures { option_map bad_seen result ≡ bad_in (held_of file.now) }
{
    if !file.role.is_certificate() {
        return None;
    }
    match read_certificate(file.bytes.as_slice()) {
        Ok(_) => None,
        Err(fault) => Some(BadFile {
            name: file.name,
            at: fault.at as u64,
        }),
    }
}

// The first certificate file that isn't one whole certificate.
fn bad_certificate<'f>(files: &'f [File<'_>]) -> Option<BadFile<'f>>
    ensures { option_map bad_seen result ≡ bad_certificate (map held_of files.now) }
{
    let mut rest = files;
    'files: loop {
        match rest {
            [file, others @ ..] => {
                if let Some(bad) = bad_in(file) {
                    return Some(bad);
                }
                rest = others;
            }
            [] => return None,
        }
    }
}

// Why a command stops that has a bad file, unless its document has a fault.
pub(crate) fn stop_by_file(alloc: Global, document: &[u8], bad: BadFile<'_>) -> Stop
    requires { length document.now ≤ 16777216 }
    ensures { IsOf (unless_faulty document.now (fault document.now) (RefusesData bad.entry.name.now bad.entry.at)) (Err result) }
{
    match read_document(alloc, document) {
        Ok(_) => match Name::new(alloc, bad.name) {
            Ok(name) => Stop::Refusal(Refusal::Data { name, at: bad.at }),
            Err(OutOfMemory) => Stop::OutOfMemory,
        },
        Err(stop) => stop,
    }
}

// The document with the signature that a draft gives, or why it is refused.
fn write_prepared(
    alloc: Global,
    document: &[u8],
    draft: &Draft,
    policy: &Policy,
    externals: &Externals,
) -> Result<Answer, Stop>
    requires document { length document.now ≤ 16777216 }
    requires draft { IsReady draft.now }
    requires handed { AreHanded (handed_in externals.now) draft.now.references }
    ensures outcome { IsOf (unless_faulty document.now (fault document.now) (draft_outcome (rules policy.now) (handed_in externals.now) draft.now document.now)) result }
    ensures says { TextSays (IsPreparedOf (handed_in externals.now) draft.now document.now) result }
{
    match prepare(alloc, document, draft, policy, externals) {
        Ok(text) => Ok(Answer::Text(text)),
        Err(Refused::BadDocument(fault)) => Err(Stop::Refusal(Refusal::Document {
            fault,
            size: document.len(),
        })),
        Err(Refused::Refused { item, code }) => { Err(Stop::Refusal(Refusal::Item { item, code })) }
        Err(Refused::OutOfMemory) => Err(Stop::OutOfMemory),
    }
}

// The document with the signature that the words ask for, where all certificate files are whole.
fn draft_and_write(
    alloc: Global,
    asked: &Preparation<'_>,
    policy: &Policy,
    mut files: Vec<File<'_>>,
) -> Result<Answer, Stop>
    requires sound { IsPreparable (prepares_of asked.now) }
    requires read { AreFor (prepare_wants (prepares_of asked.now)) (map held_of files.items) }
    requires whole { bad_certificate (map held_of files.items) ≡ None }
    ensures outcome { IsOf (by_rules (prepares_of asked.now) (map held_of files.entry.items) (rules policy.now)) result }
    ensures says { TextSays (IsPrepared (prepares_of asked.now) (map held_of files.entry.items)) result }
{
    let draft = draft_by(alloc, asked, files.as_slice())?;
    let document = files.remove(0);
    let externals = hand_in(alloc, files)?;
    write_prepared(alloc, document.bytes.as_slice(), &draft, policy, &externals)
}

/// The document with the unsigned signature that the words ask for; or why it is refused, by the policy, the document, a certificate file
/// or the draft, in this order.
pub fn prepare_document(
    alloc: Global,
    asked: &Preparation<'_>,
    files: Vec<File<'_>>,
) -> Result<Answer, Stop>
    requires sound { IsPreparable (prepares_of asked.now) }
    requires read { AreFor (prepare_wants (prepares_of asked.now)) (map held_of files.items) }
    ensures outcome { IsOf (prepare_outcome (prepares_of asked.now) (map held_of files.entry.items)) result }
    ensures says { TextSays (IsPrepared (prepares_of asked.now) (map held_of files.entry.items)) result }
{
    let policy = match policy_by(alloc, policy_of(files.as_slice())) {
        Ok(policy) => policy,
        Err(stop) => return Err(stop),
    };
    match bad_certificate(files.as_slice()) {
        Some(bad) => Err(stop_by_file(alloc, document_of(files.as_slice()), bad)),
        None => draft_and_write(alloc, asked, &policy, files),
    }
}
