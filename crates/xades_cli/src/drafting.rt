// Drafts of signatures, of words and certificate files.
ghost use Rattle.std.specs.Prelude.{◌≡◌, ◌∷◌, [], map, true, IfOk, OnOk};
ghost use Rattle.std.specs.Str.{chars};
ghost use Rattle.covered_items.specs.Whole.{EachBytes};
ghost use Rattle.whole_files.specs.Wants.{held_of};
ghost use Rattle.word_patterns.specs.Grammar.{text_now};
ghost use Rattle.word_patterns.specs.TextForms.{is_time};
ghost use Rattle.xades_cli.specs.Prepare.{certificates_of, draft_of, with_certificates, with_references};
ghost use Rattle.command_words.specs.Preparing.{prepares_of};

use augmenter::Draft;
use command_words::Preparation;
use std::alloc::Global;
use utc_times::read_time;
use whole_files::File;
use xa_io::OutOfMemory;

// Puts a file into a draft where it is a certificate.
fn add_if_certificate(draft: &mut Draft, file: &File<'_>) -> Result<(), OutOfMemory>
    ensures added { OnOk result (draft.new ≡ with_certificates (certificates_of (held_of file.now ∷ [])) draft.old) }
    ensures bytes { OnOk result (EachBytes draft.old.certificates → EachBytes draft.new.certificates) }
{
    if !file.role.is_certificate() {
        return Ok(());
    }
    draft.add_cert(file.bytes.as_slice())?;
    Ok(())
}

// Puts the certificate files into a draft, in their order.
fn add_certificates(draft: &mut Draft, files: &[File<'_>]) -> Result<(), OutOfMemory>
    ensures added { OnOk result (draft.new ≡ with_certificates (certificates_of (map held_of files.now)) draft.old) }
    ensures bytes { OnOk result (EachBytes draft.old.certificates → EachBytes draft.new.certificates) }
{
    for file in files {
        add_if_certificate(draft, file)?;
    }
    Ok(())
}

// Puts References into a draft, by their URIs.
fn add_references(draft: &mut Draft, uris: &[&str]) -> Result<(), OutOfMemory>
    ensures { OnOk result (draft.new ≡ with_references (map chars (map text_now uris.now)) draft.old) }
{
    for uri in uris {
        draft.add_ref(*uri)?;
    }
    Ok(())
}

/// The draft that the words ask for, with the certificates of the files.
pub fn draft_by(
    alloc: Global,
    asked: &Preparation<'_>,
    files: &[File<'_>],
) -> Result<Draft, OutOfMemory>
    requires time { is_time asked.now.time.now ≡ true }
    ensures draft { IfOk result (λ draft. draft ≡ draft_of (prepares_of asked.now) (certificates_of (map held_of files.now))) }
    ensures bytes { IfOk result (λ draft. EachBytes draft.certificates) }
{
    let Some(seconds) = read_time(asked.time.as_bytes()) else {
        unreachable!();
    };
    let mut draft = Draft::new(alloc, seconds, asked.id, asked.method, asked.digest)?;
    add_certificates(&mut draft, files)?;
    add_references(&mut draft, asked.references.as_slice())?;
    Ok(draft)
}
