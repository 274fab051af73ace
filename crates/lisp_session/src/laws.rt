ghost use Rattle.lisp_session.specs.Programs.{NeverBoth, OneProgram, OneRefusal, ProgramOrRefused};

use lisp_reader::reader;

/// All bytes are a program or are refused. There is nothing to run: the clause is the law, as in the three below.
pub fn program_or_refused()
    ensures { ProgramOrRefused }
{
    reader::read_or_refused();
}

/// Bytes are at most one program.
pub fn one_program()
    ensures { OneProgram }
{
    reader::one_reading();
}

/// Bytes are refused for one reason at one place.
pub fn one_refusal()
    ensures { OneRefusal }
{
    reader::one_reading();
    reader::one_refusal();
    reader::never_both();
}

/// No bytes are both a program and refused.
pub fn never_both()
    ensures { NeverBoth }
{
    reader::one_reading();
    reader::never_both();
}
