//! Lines that come in piece by piece.
ghost use Rattle.std.specs.Prelude.{◌≡◌, ◌≤◌, ◌++◌, [], IfErr, OnOk, length};
ghost use Rattle.mvd_input.specs.Ends.{EndsEarly};
ghost use Rattle.mvd_shell.specs.ReadLine.{IsUnreadLine, ReadsOneLine, ReadsPiece};

use mvd_dots::Refusal;
use mvd_input::{Fault, first_line};
use std::io::BufRead;

/// The most bytes of a line.
const LINE_MAX: usize = 16_777_216;

/// What came in of a line.
#[derive(Clone, Copy)]
enum Piece {
    /// A part of it, behind which more may come.
    Part,
    /// All of it, up to the line feed behind it, which came in with it.
    End,
    /// No more: the input is at its end.
    Last,
}

/// Takes the next line, without its line feed, and whether it has one: else the input ends behind it.
pub fn read_line<R: BufRead>(reader: &mut R, line: &mut Vec<u8>) -> Result<bool, Fault>
    requires { line.old.items ≡ [] }
    ensures read { ReadsOneLine (R.remaining reader.old) (R.remaining reader.new) line.new.items result }
    ensures ends { IfErr result EndsEarly }
{
    loop {
        match read_piece(reader, line) {
            Ok(Piece::Part) => {}
            Ok(Piece::End) => return Ok(true),
            Ok(Piece::Last) => return Ok(false),
            Err(fault) => return Err(fault),
        }
    }
}

/// Takes what the reader has of a line, or as much as it gives at once.
fn read_piece<R: BufRead>(reader: &mut R, line: &mut Vec<u8>) -> Result<Piece, Fault>
    requires { length line.old.items ≤ 16777216 }
    ensures read { ReadsPiece (R.remaining reader.old) (R.remaining reader.new) line.old.items line.new.items result }
    ensures ends { IfErr result EndsEarly }
{
    let Ok(held) = reader.fill_buf() else {
        return Err(Fault::Stopped(Refusal::ReadFailed));
    };
    if held.is_empty() {
        return Ok(Piece::Last);
    }
    let (part, after) = first_line(held);
    let count = part.len();
    let is_whole = after.is_some();
    let added = add(line, part);
    if is_whole {
        reader.consume(count + 1);
        match added {
            Ok(()) => Ok(Piece::End),
            Err(fault) => Err(fault),
        }
    } else {
        reader.consume(count);
        match added {
            Ok(()) => Ok(Piece::Part),
            Err(fault) => Err(fault),
        }
    }
}

/// Adds a part to a line.
fn add(line: &mut Vec<u8>, part: &[u8]) -> Result<(), Fault>
    requires { length line.old.items ≤ 16777216 }
    ensures added { OnOk result (line.new.items ≡ line.old.items ++ part.now) }
    ensures short { OnOk result (length line.new.items ≤ 16777216) }
    ensures unread { IfErr result (λ fault. IsUnreadLine fault (line.old.items ++ part.now)) }
    ensures ends { IfErr result EndsEarly }
{
    if part.len() > LINE_MAX - line.len() {
        return Err(Fault::Stopped(Refusal::FrameTooLong));
    }
    line.extend_from_slice(part)?;
    Ok(())
}
