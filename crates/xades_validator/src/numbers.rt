//! The codes of what stands against a judgement, by their numbers.

ghost use Rattle.std.specs.Prelude.{Option, IfOk};
ghost use Rattle.doc_spans.specs.declared.documents.Doc.{Doc};
ghost use Rattle.qualifying_props.specs.Answers.{IsFault};
ghost use Rattle.references.specs.Answers.{IsFault as IsRefFault};
ghost use Rattle.signature_model.specs.Chains.{Fault};
ghost use Rattle.signature_model.specs.Readable.{Answer};
ghost use Rattle.xades_validator.specs.Numbers.{IsAnswerNumber, IsNumberOf};

use qualifying_props::PartFault;
use references::RefFault;
use xa_io::OutOfMemory;

/// The number of the code for a signature that isn't read (A1 to A5).
pub(crate) fn number_by_parts(fault: PartFault) -> Result<u8, OutOfMemory>
    ensures { (doc : Doc) (found : Answer) → IsFault doc found fault → IfOk result (IsAnswerNumber found) }
{
    match fault {
        PartFault::NoSignature => Ok(1),
        PartFault::Several => Ok(2),
        PartFault::Shape { .. } => Ok(3),
        PartFault::Include { .. } => Ok(4),
        PartFault::PropertyData { .. } => Ok(5),
        PartFault::OutOfMemory => Err(OutOfMemory),
    }
}

/// The number of the code for References that have a fault (A6 to A11).
pub(crate) fn number_by_references(fault: RefFault) -> Result<u8, OutOfMemory>
    ensures { (found : Option Fault) → IsRefFault found fault → IfOk result (IsNumberOf found) }
{
    match fault {
        RefFault::TargetMissing { .. } => Ok(6),
        RefFault::TargetTwice { .. } => Ok(7),
        RefFault::Chain { .. } => Ok(8),
        RefFault::DigestName { .. } => Ok(9),
        RefFault::External { .. } => Ok(10),
        RefFault::Base64 { .. } => Ok(11),
        RefFault::OutOfMemory => Err(OutOfMemory),
    }
}
