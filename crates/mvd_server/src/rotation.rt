//! The file with tokens, read again as it changes.
use crate::tokens::{Tokens, TokensFault, read_tokens};
use mvd_dots::Refusal;
use mvd_input::{Fault, PassFault, tell};
use std::alloc::{AllocError, Global};
use std::fmt::Write as Print;
use std::fs::{self, Files};
use std::io::{self, Write};
use std::os::unix::fs::MetadataExt;

/// So many milliseconds after a change the file is read again: two changes at one tick of the system's clock have one time.
/// So it is, too, where it could not be read: what kept it from that may have ended, and nothing of the file tells of it.
const AGAIN: u64 = 1_000;

/// By what a file is told from what it was.
#[derive(Clone, Copy, PartialEq)]
struct Mark {
    device: u64,
    number: u64,
    length: u64,
    /// When its content changed, and when anything of it did.
    changed: (i64, i64),
    touched: (i64, i64),
}

/// The file, and how it was when it was read.
#[derive(Drop)]
pub(crate) struct Rotation {
    alloc: Global,
    file: String,
    was_seen: bool,
    mark: Option<Mark>,
    /// When it is read again whatever its mark is.
    again: Option<u64>,
    /// Whether it was noted that this file changes nothing.
    is_noted: bool,
    /// What is to be told on standard error.
    errors: String,
}

impl Rotation {
    /// The file was read, before anything was known of it.
    pub fn new(alloc: Global, file: &str) -> Result<Rotation, AllocError> {
        Ok(Rotation {
            alloc,
            file: String::from_str(alloc, file)?,
            was_seen: false,
            mark: None,
            again: None,
            is_noted: false,
            errors: String::new(alloc),
        })
    }

    /// What the file says, where it has changed since it was looked at. One that cannot be read, or is no file with tokens,
    /// changes nothing, and that is told once.
    pub fn look<F: Files>(&mut self, rt: &F, now: u64) -> Option<Tokens> {
        if self.file.is_empty() {
            return None;
        }
        let mark = match mark_of(rt, self.file.as_str()) {
            Ok(None) if !self.was_seen => {
                // What was read at first is no file, as a pipe: it is not looked at again.
                self.file.clear();
                return None;
            }
            Ok(mark) => mark,
            Err(_) => None,
        };
        if !self.is_changed(mark, now) {
            return None;
        }
        match self.read(rt, mark) {
            Ok(tokens) => Some(tokens),
            Err(fault) => {
                self.note(fault, now);
                None
            }
        }
    }

    /// Whether it is to be read: it is another than it was, or was changed so lately that it may be.
    fn is_changed(&mut self, mark: Option<Mark>, now: u64) -> bool {
        self.was_seen = true;
        if mark != self.mark {
            self.mark = mark;
            self.is_noted = false;
            self.again = Some(now.saturating_add(AGAIN));
            return true;
        }
        match self.again {
            Some(due) if due <= now => {
                self.again = None;
                true
            }
            _ => false,
        }
    }

    /// Nothing but a file is opened: another thing may have it wait.
    fn read<F: Files>(&self, rt: &F, mark: Option<Mark>) -> Result<Tokens, TokensFault> {
        match mark {
            Some(_) => read_tokens(rt, self.alloc, self.file.as_str()),
            None => Err(TokensFault::Unread(Fault::Stopped(Refusal::ReadFailed))),
        }
    }

    /// Notes why the file changes nothing, once for a file. What memory is refused for is not told.
    fn note(&mut self, fault: TokensFault, now: u64) {
        if let TokensFault::Unread(_) | TokensFault::Bad(PassFault::Memory) = fault {
            self.again = Some(now.saturating_add(AGAIN));
        }
        if !self.is_noted {
            self.is_noted = true;
            let _ = self.print(fault);
        }
    }

    fn print(&mut self, fault: TokensFault) -> Result<(), AllocError> {
        let file = self.file.as_str();
        match fault {
            TokensFault::Unread(fault) => {
                writeln!(
                    self.errors,
                    "mvd: {file}: {fault}: its tokens stay as they were"
                )
            }
            TokensFault::Bad(fault) => {
                writeln!(
                    self.errors,
                    "mvd: {file}: {fault}: its tokens stay as they were"
                )
            }
        }
    }

    /// Tells what is to be told. What cannot be written is left out.
    pub fn tell_errors<E: Write>(&mut self, errors: &mut E) {
        if self.errors.is_empty() {
            return;
        }
        let _ = tell(errors, &mut self.errors);
        self.errors.clear();
    }
}

/// By what a file is known, if it is one.
fn mark_of<F: Files>(rt: &F, file: &str) -> io::Result<Option<Mark>> {
    let told = fs::metadata(rt, file)?;
    if !told.is_file() {
        return Ok(None);
    }
    Ok(Some(Mark {
        device: told.dev(),
        number: told.ino(),
        length: told.len(),
        changed: (told.mtime(), told.mtime_nsec()),
        touched: (told.ctime(), told.ctime_nsec()),
    }))
}
