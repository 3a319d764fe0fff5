//! Lines that are typed, each answered at once.
ghost use Rattle.std.specs.Prelude.{◌≡◌, ◌++◌, IfErr, OnOk, string_bytes};
ghost use Rattle.std.specs.Io.KnownBytes.{Appends};
ghost use Rattle.mvd_dots.specs.declared.refusals.Refusal.TheVariants.{Memory, WriteFailed};
ghost use Rattle.mvd_input.specs.declared.fault.Fault.TheVariants.{Stopped};
ghost use Rattle.mvd_input.specs.Ends.{EndsEarly};
ghost use Rattle.mvd_shell.specs.Shell.{MayTellLine, Shells, ShellTakesLine, TellsLine, at, no_command_text};
ghost use Rattle.mvd_shell.specs.Talk.{AsksInTurn};

use crate::line_reader::read_line;
use crate::losses::Losses;
use crate::talk::answer;
use crate::written::write_lines;
use mvd_dots::Refusal;
use mvd_input::{Fault, Typed, text_of, typed_of};
use mvd_peer::Endpoint;
use std::alloc::Global;
use std::fmt::Write as Print;
use std::io::{BufRead, Write};

/// What `help` prints.
pub const HELP: &str = "\
put K CTX DOC   writes the JSON object DOC at key K; prints its dot
del K CTX       deletes what CTX has seen of key K
get K           the context of key K, and its siblings, each with its dot
find F TERM     the keys whose documents have TERM at the indexed field F
range F PAIR    those from one term to another; PAIR is a JSON array of the two
row V TERM      of the row of TERM in the view V: count, sum, least and greatest
rows V          all rows of the view V
keys            all keys that are held, each with how many siblings it has: 0 where it is deleted
keys PREFIX     those that begin with PREFIX
conflicts       those with more than one sibling
root            the digest of all that is held
node PATH       the digest of a node of the hash tree; PATH is - or 1 to 3 digits
CTX is - where nothing was read, @ for all that `get K` shows now, or a context.
";

/// Answers each line of the reader at once, in the words of a script, until the input ends. Empty lines, and those
/// that begin with `#`, are skipped and counted; a line that is no command is told with its number, counted from 1,
/// and the next one is read. A write of which it is not known whether it was done is told as `unknown`, and not as
/// `refused`.
///
/// It ends as `Stopped` where a line has over 16,777,216 bytes, the reader or the writer fails, or memory
/// is refused for what is read or printed; and where there are more lines than can be counted. What was told before
/// stays.
pub fn shell_run<A: Endpoint, L: Losses<A>, R: BufRead, W: Write>(
    alloc: Global,
    asked: &mut A,
    reader: &mut R,
    writer: &mut W,
) -> Result<(), Fault>
    ensures told { Shells A.answers L.lost (at asked.old (R.remaining reader.old) (W.contents writer.old))
        (at asked.new (R.remaining reader.new) (W.contents writer.new)) result }
    // Whatever ends it, only requests were asked, one after the other.
    ensures asked { AsksInTurn A.answers asked.old asked.new }
    ensures ends { IfErr result EndsEarly }
{
    let mut out = String::new(alloc);
    for number in 1..u64::MAX {
        match take_line::<A, L, R, W>(alloc, asked, number, reader, writer, &mut out) {
            Ok(true) => {}
            Ok(false) => return Ok(()),
            Err(fault) => return Err(fault),
        }
    }
    Err(Fault::Stopped(Refusal::FrameTooLong))
}

/// Reads the line of this number, answers it, and tells that; and whether another line follows.
#[tactic(auto, using(crate::proofs::Typing::asks_none))]
fn take_line<A: Endpoint, L: Losses<A>, R: BufRead, W: Write>(
    alloc: Global,
    asked: &mut A,
    number: u64,
    reader: &mut R,
    writer: &mut W,
    out: &mut String,
) -> Result<bool, Fault>
    ensures told { ShellTakesLine A.answers L.lost number
        (at asked.old (R.remaining reader.old) (W.contents writer.old))
        (at asked.new (R.remaining reader.new) (W.contents writer.new)) result }
    ensures asked { AsksInTurn A.answers asked.old asked.new }
    ensures ends { IfErr result EndsEarly }
{
    let mut line = Vec::new(alloc);
    match read_line(reader, &mut line) {
        Ok(goes_on) => match take::<A, L>(alloc, asked, number, &line, out) {
            Ok(()) => match write_lines(writer, out.as_str()) {
                Ok(()) => Ok(goes_on),
                Err(fault) => Err(fault),
            },
            Err(fault) => Err(fault),
        },
        Err(fault) => Err(fault),
    }
}

/// Answers the line of this number, and puts what is printed of it in place of what `out` held.
#[tactic(auto, using(crate::proofs::Typing::asks_none, crate::proofs::Typing::none_told))]
fn take<A: Endpoint, L: Losses<A>>(
    alloc: Global,
    asked: &mut A,
    number: u64,
    line: &[u8],
    out: &mut String,
) -> Result<(), Fault>
    ensures told { OnOk result (TellsLine A.answers L.lost number line.now asked.old asked.new (string_bytes out.new)) }
    ensures memory { IfErr result (λ fault. fault ≡ Stopped Memory) }
    ensures left { IfErr result (λ _. MayTellLine A.answers L.lost number line.now asked.old asked.new) }
    ensures asked { AsksInTurn A.answers asked.old asked.new }
{
    out.clear();
    let Some(text) = text_of(line) else {
        return print_no_command(number, out);
    };
    if text.is_empty() {
        return Ok(());
    }
    match typed_of(text) {
        Some(Typed::Help) => Ok(out.push_str(HELP)?),
        Some(Typed::Ask(ask)) => Ok(answer::<A, L>(alloc, asked, ask, out)?),
        None => print_no_command(number, out),
    }
}

/// Prints that the line of this number is no command.
fn print_no_command(number: u64, out: &mut String) -> Result<(), Fault>
    ensures text { OnOk result (string_bytes out.new ≡ string_bytes out.old ++ no_command_text number) }
    ensures memory { IfErr result (λ fault. fault ≡ Stopped Memory) }
{
    writeln!(out, "line {number}: not a command")?;
    Ok(())
}
