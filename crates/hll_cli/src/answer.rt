//! What the program answers: its exit status and its output.

ghost use Rattle.std.specs.Prelude.{◌≡◌, ◌++◌, codes, IfOk};
ghost use Rattle.hll_cli.specs.Answers.{code_of};
ghost use Rattle.hll_cli.specs.Faults.{status_of};
ghost use Rattle.hll_cli.specs.Lines.{usage_line, refusal_line, kind_text as text_of_kind, mistake_text as text_of_mistake, place_text, line_feed};
ghost use Rattle.hll_cli.specs.declared.answer.Status.TheVariants as status;

use crate::fault::{Mistake, Refusal};
use crate::line::Printed;
use hll_lexer::LineColumn;
use hll_meaning::StaticKind;
use std::alloc::{AllocError, Global};

/// How the program ends. The exit status is the number.
#[derive(Clone, Copy, Debug, PartialEq, Eq)]
pub enum Status {
    /// Each obligation that was printed is proved.
    Done = 0,
    /// A falsified obligation was printed.
    Falsified = 1,
    /// An undecided obligation was printed, and no falsified one.
    Undecided = 2,
    /// The text is refused.
    Refused = 3,
    /// The words are refused.
    Usage = 4,
    /// The model's file could not be read.
    ReadFault = 5,
    /// The output could not be written.
    WriteFault = 6,
    Memory = 7,
    /// The evidence is refused.
    Unaccepted = 8,
}

impl Status {
    /// The exit status as a number.
    pub fn code(self) -> u8
        ensures { result ≡ code_of self }
    {
        self as u8
    }

    /// The status with which a refusal is printed.
    fn of_refusal(refusal: Refusal) -> Status
        ensures { result ≡ status_of refusal }
    {
        match refusal {
            Refusal::Unread => Status::ReadFault,
            Refusal::Long | Refusal::Misplaced(_, _) | Refusal::Unbuilt => Status::Refused,
        }
    }
}

/// How the program ends, and what is written for it.
#[derive(Debug, Drop)]
pub struct Answer {
    pub status: Status,
    pub output: Vec<u8>,
}

impl Answer {
    /// The answer to wrong words.
    pub fn usage(alloc: Global) -> Result<Answer, AllocError>
        ensures { IfOk result (λ a. (a.status ≡ status.Usage) × (a.output.items ≡ usage_line)) }
    {
        Ok(Answer {
            status: Status::Usage,
            output: Vec::from_slice(
                alloc,
                b"usage: hll prove MODEL | hll check EVIDENCE | hll format MODEL\n",
            )?,
        })
    }

    /// The answer where the file of this name has none of its own.
    pub fn refused(alloc: Global, name: &str, refusal: Refusal) -> Result<Answer, AllocError>
        ensures { IfOk result (λ a. (a.status ≡ status_of refusal) × (a.output.items ≡ refusal_line name.now refusal)) }
    {
        Ok(Answer {
            status: Status::of_refusal(refusal),
            output: refusal_line(alloc, name, refusal)?,
        })
    }
}

/// The word for a static fault.
fn kind_text(kind: StaticKind) -> &'static str
    ensures { result.now ≡ text_of_kind kind }
{
    match kind {
        StaticKind::Unknown => "Unknown",
        StaticKind::Twice => "Twice",
        StaticKind::Kind => "Kind",
        StaticKind::Mismatch => "Mismatch",
        StaticKind::Range => "Range",
        StaticKind::Constant => "Constant",
        StaticKind::Wide => "Wide",
        StaticKind::Shape => "Shape",
        StaticKind::Cells => "Cells",
        StaticKind::Undefined => "Undefined",
        StaticKind::FirstMissing => "FirstMissing",
    }
}

/// The word for a mistake.
fn mistake_text(mistake: Mistake) -> &'static str
    ensures { result.now ≡ text_of_mistake mistake }
{
    match mistake {
        Mistake::Stray => "Stray",
        Mistake::Unclosed => "Unclosed",
        Mistake::Number => "Number",
        Mistake::Unexpected => "Unexpected",
        Mistake::Deep => "Deep",
        Mistake::Static(kind) => kind_text(kind),
    }
}

/// The line on the first mistake of a text.
fn misplaced_line(alloc: Global, mistake: Mistake, place: LineColumn) -> Result<Vec<u8>, AllocError>
    ensures { IfOk result (λ line. line.items
        ≡ codes "refused " ++ text_of_mistake mistake ++ codes " at " ++ place_text place ++ line_feed) }
{
    let mut line = Vec::from_slice(alloc, b"refused ")?;
    line.extend_from_slice(mistake_text(mistake).as_bytes())?;
    line.extend_from_slice(b" at ")?;
    place.print(&mut line)?;
    line.extend_from_slice(b"\n")?;
    Ok(line)
}

/// The line on why a file has no answer of its own.
fn refusal_line(alloc: Global, name: &str, refusal: Refusal) -> Result<Vec<u8>, AllocError>
    ensures { IfOk result (λ line. line.items ≡ refusal_line name.now refusal) }
{
    match refusal {
        Refusal::Unread => {
            let mut line = Vec::from_slice(alloc, b"refused read ")?;
            line.extend_from_slice(name.as_bytes())?;
            line.extend_from_slice(b"\n")?;
            Ok(line)
        }
        Refusal::Long => Vec::from_slice(alloc, b"refused Long\n"),
        Refusal::Misplaced(mistake, place) => misplaced_line(alloc, mistake, place),
        Refusal::Unbuilt => Vec::from_slice(alloc, b"refused Unbuilt\n"),
    }
}
