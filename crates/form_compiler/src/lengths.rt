//! How many lines a program has.
ghost use Rattle.std.specs.Prelude.{◌≡◌, ◌≤◌, ◌+◌, min, IfOk};
ghost use Rattle.form_compiler.specs.inside.Extents.{MOST};
ghost use Rattle.form_compiler.specs.inside.Lengths.{body_size as size_of_body, program_size as size_of_program};

use crate::sizes::{body_size, extents};
use lisp_base::memory::Memory;
use lisp_program::form::{FormNode, Program};
use std::alloc::Global;

/// The lines of forms as a body, as far as they are counted.
fn body_lines(alloc: Global, nodes: &[FormNode]) -> Result<u32, Memory>
    ensures { IfOk result (λ lines. lines ≡ min (size_of_body nodes.now) MOST) }
{
    let extents = extents(alloc, nodes)?;
    Ok(body_size(nodes, extents.as_slice()))
}

/// So many more lines, as far as they are counted.
fn more(lines: u32, body: u32, others: u32) -> u32
    requires lines { lines ≤ MOST }
    requires body { body ≤ MOST }
    requires others { others ≤ 2 }
    ensures { result ≡ min (lines + body + others) MOST }
{
    (lines + body + others).min(65_537)
}

/// The lines of a program, counted up to 65,537 and no further.
pub(crate) fn program_lines(alloc: Global, program: &Program) -> Result<u32, Memory>
    ensures { IfOk result (λ lines. lines ≡ min (size_of_program program.now) MOST) }
{
    let mut lines = more(0, body_lines(alloc, program.main())?, 1);
    for function in program.functions() {
        lines = more(lines, body_lines(alloc, function.body())?, 1);
    }
    Ok(more(lines, 0, 2))
}
