ghost use Rattle.std.specs.Prelude.{◌≡◌};
ghost use Rattle.form_compiler.specs.inside.Extents;

use crate::operands::{operands_of, printed_of, served_of, service_lines, written};
use lisp_program::form::CoreKind;

/// What becomes of the forms under a form that come after its operands.
#[derive(Clone, Copy)]
pub enum Others {
    PassedOver,
    /// They are a body.
    Body,
    /// Each is done, one after the other.
    InTurn,
}

/// How the points of a form are made of those of the forms under it: the first so many are operands, of which a missing one
/// is the constant NIL, then come the others, and there are so many lines more.
#[derive(Clone, Copy)]
pub struct Row {
    pub operands: usize,
    pub others: Others,
    pub lines: u32,
}

impl Row {
    /// So many operands, and so many lines.
    fn alone(operands: usize, lines: u32) -> Self
        ensures { result ≡ Extents.alone operands lines }
    {
        Row {
            operands,
            others: Others::PassedOver,
            lines,
        }
    }

    /// So many operands, a body, and so many lines.
    fn with_body(operands: usize, lines: u32) -> Self
        ensures { result ≡ Extents.with_body operands lines }
    {
        Row {
            operands,
            others: Others::Body,
            lines,
        }
    }

    /// So many operands, the others in turn, and so many lines.
    fn in_turn(operands: usize, lines: u32) -> Self
        ensures { result ≡ Extents.in_turn operands lines }
    {
        Row {
            operands,
            others: Others::InTurn,
            lines,
        }
    }
}

/// How the points of a form of this kind are made.
pub(crate) fn row_of(kind: &CoreKind) -> Row
    ensures { result ≡ Extents.row_of kind.now }
{
    match kind {
        CoreKind::Constant(_)
        | CoreKind::CurrentThread
        | CoreKind::Function(_)
        | CoreKind::Local(_)
        | CoreKind::Special(_)
        | CoreKind::Defun(_)
        | CoreKind::Signal(_)
        | CoreKind::AbortThread => Row::alone(0, 1),
        CoreKind::SetLocal(_)
        | CoreKind::SetSpecial(_)
        | CoreKind::Defparameter(_)
        | CoreKind::ReturnFrom(_)
        | CoreKind::ReturnFromThread => Row::alone(1, 1),
        CoreKind::Defvar(_) => Row::alone(1, 2),
        CoreKind::CompareAndSwap(_) | CoreKind::Throw => Row::alone(2, 1),
        CoreKind::If => Row::alone(3, 2),
        CoreKind::Apply(function) => Row::alone(operands_of(function), 1),
        CoreKind::Print(printing) => Row::alone(printed_of(printing), 1),
        CoreKind::Serve(service) => Row::alone(served_of(service), service_lines(service)),
        CoreKind::Progn => Row::with_body(0, 0),
        CoreKind::BindLocal(_, _)
        | CoreKind::BindSpecial(_, _)
        | CoreKind::Block(_)
        | CoreKind::WithoutInterrupts(_)
        | CoreKind::AllowWithInterrupts(_)
        | CoreKind::WithInterrupts => Row::with_body(0, 2),
        CoreKind::Clause(_) => Row::with_body(0, 1),
        CoreKind::ClauseWith(_, _) => Row::with_body(0, 3),
        CoreKind::While | CoreKind::UnwindProtect => Row::with_body(1, 3),
        CoreKind::Catch => Row::with_body(1, 2),
        CoreKind::WithDeadline { seconds, replaces } => Row::with_body(
            written(*seconds, *replaces),
            2,
        ),
        CoreKind::Let => Row::in_turn(0, 0),
        CoreKind::Call(_) => Row::in_turn(0, 1),
        CoreKind::HandlerCase => Row::in_turn(1, 2),
    }
}
