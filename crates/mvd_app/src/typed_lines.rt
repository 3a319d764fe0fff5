//! Lines of standard input, each answered at once.
ghost use Rattle.mvd_app.specs.Tasks.{TypesLines};
ghost use Rattle.mvd_shell.specs.Shell.{at};

use mvd_hint::{Hint, Stop};
use mvd_replica::Replica;
use mvd_shell::{NoLosses, shell_run};
use sqlite::Alter;
use std::alloc::Global;
use std::io::{BufRead, Write};

/// Answers the lines of a reader on a stored site, and writes what they print.
pub fn typed<'a, S: Alter + Drop, R: BufRead, W: Write>(
    alloc: Global,
    replica: &mut Replica<S>,
    reader: &mut R,
    writer: &mut W,
) -> Result<(), Stop<'a>>
    // However it ends, only requests of the lines were asked, and what was printed is what they were told.
    ensures { TypesLines (at replica.old (R.remaining reader.old) (W.contents writer.old))
        (at replica.new (R.remaining reader.new) (W.contents writer.new)) result }
{
    match shell_run::<Replica<S>, NoLosses, R, W>(alloc, replica, reader, writer) {
        Ok(()) => Ok(()),
        Err(fault) => Err(Stop::in_input(fault, Hint::Script)),
    }
}
