//! Comments and processing instructions (Canonical XML 1.0, section 2.3, "Comment Nodes" and "Processing Instruction (PI) Nodes").

ghost use Rattle.std.specs.Prelude.{◌≡◌, ◌++◌, OnOk, OnErr, length, take, encode_utf8_all};
ghost use Rattle.std.specs.Str.{chars};
ghost use Rattle.document_model.specs.Canonical.{comment_text, instruction_text, with_space};
ghost use Rattle.doc_spans.specs.Pieces.{characters_left};

use crate::escapes::put_pieces;
use crate::places::Place;
use doc_spans::Pieces;
use xa_io::{Octs, OutOfMemory};

/// Appends a comment with these characters. After `OutOfMemory` a part of it may stand behind what stood before.
#[tactic(auto, using(crate::proofs::Kept::kept_through, crate::proofs::Kept::kept_behind))]
pub fn put_comment(out: &mut Octs, pieces: Pieces<'_>) -> Result<(), OutOfMemory>
    ensures ok { OnOk result (out.new ≡ out.old ++ encode_utf8_all (comment_text (characters_left pieces.entry))) }
    ensures err { OnErr result (take (length out.old) out.new ≡ out.old) }
{
    out.push_all(b"<!--")?;
    put_pieces(out, Place::Markup, pieces)?;
    out.push_all(b"-->")
}

/// Appends a processing instruction by its target and content, with a space between them where there is content. After `OutOfMemory` a
/// part of it may stand behind what stood before.
#[tactic(auto, using(crate::proofs::Kept::kept_through, crate::proofs::Kept::kept_behind))]
pub fn put_instruction(out: &mut Octs, target: &str, content: Pieces<'_>) -> Result<(), OutOfMemory>
    ensures ok { OnOk result (out.new ≡ out.old ++ encode_utf8_all (instruction_text (chars target.now) (characters_left content.entry))) }
    ensures err { OnErr result (take (length out.old) out.new ≡ out.old) }
{
    out.push_all(b"<?")?;
    out.push_all(target.as_bytes())?;
    put_content(out, content)?;
    out.push_all(b"?>")
}

// Appends the content of a processing instruction, with the space before it.
#[tactic(auto, using(crate::proofs::Kept::kept_through, crate::proofs::Kept::kept_behind))]
fn put_content(out: &mut Octs, content: Pieces<'_>) -> Result<(), OutOfMemory>
    ensures ok { OnOk result (out.new ≡ out.old ++ encode_utf8_all (with_space (characters_left content.entry))) }
    ensures err { OnErr result (take (length out.old) out.new ≡ out.old) }
{
    if content.same("") {
        return Ok(());
    }
    out.push_all(b" ")?;
    put_pieces(out, Place::Markup, content)
}
