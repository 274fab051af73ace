ghost use Rattle.std.specs.Prelude.{◌≡◌, IfOk, IfErr, OnOk};
ghost use Rattle.lisp_session.specs.Headline.{WereRead};
ghost use Rattle.lisp_session.specs.inside.Ends.{StopsReading};

use lisp_edge::answers::ReadAnswer;
use lisp_edge::source::Source;
use std::alloc::Global;

/// The length of the longest text that may be a program, in bytes.
const LONGEST: usize = 1_048_576;

/// How many bytes are asked for at once, at most.
const BLOCK: usize = 65_536;

/// Why a text was not read.
#[derive(Clone, Copy)]
pub(crate) enum ReadFailure {
    /// The source failed.
    Fault,
    /// Memory ran out.
    Memory,
}

/// Reads what the source has left, up to its end or to one byte past the longest text.
pub(crate) fn read_text<S: Source>(alloc: Global, source: &mut S) -> Result<Vec<u8>, ReadFailure>
    ensures text { IfOk result (λ text. WereRead (S.left source.old) (S.left source.new) text.items) }
    ensures kept { OnOk result (S.faults source.new ≡ S.faults source.old) }
    ensures failure { IfErr result (StopsReading (S.left source.old) (S.left source.new) (S.faults source.old) (S.faults source.new)) }
{
    let mut text = Vec::new(alloc);
    let mut block = [0; BLOCK];
    while text.len() <= LONGEST {
        let room = BLOCK.min(LONGEST + 1 - text.len());
        match source.read(&mut block[..room]) {
            ReadAnswer::Took(count) => {
                if text.extend_from_slice(&block[..count]).is_err() {
                    return Err(ReadFailure::Memory);
                }
            }
            ReadAnswer::End => return Ok(text),
            ReadAnswer::Failed => return Err(ReadFailure::Fault),
        }
    }
    Ok(text)
}
