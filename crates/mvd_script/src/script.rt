//! Scripts: a line is a command on one of several sites.
ghost use Rattle.std.specs.Prelude.{◌≡◌, ◌<◌, ◌≤◌, ◌↔◌, ◌++◌, ℕ, [], IfErr, IfOk, IsSome, IsTrue, List, None, OnOk};
ghost use Rattle.std.specs.Prelude.{string_bytes, unwrap_or};
ghost use Rattle.std.specs.Io.KnownBytes.{Appends};
ghost use Rattle.mvd_dots.specs.declared.refusals.Refusal.TheVariants.{Memory, WriteFailed};
ghost use Rattle.mvd_input.specs.declared.command.Line.TheVariants as lines;
ghost use Rattle.mvd_input.specs.declared.fault.Fault.TheVariants.{Stopped};
ghost use Rattle.mvd_input.specs.Ends.{EndsEarly};
ghost use Rattle.mvd_input.specs.Hexadecimal.{lines_of};
ghost use Rattle.mvd_world.specs.Machine.{nothing_yet, setting_of};
ghost use Rattle.mvd_world.specs.Worlds.{IsWorld};
ghost use Rattle.mvd_script.specs.Script.{Blank, RunsScript, Simulates};
ghost use Rattle.mvd_script.specs.Staged.{AddsLine, ScriptBegins, IsStage, RunsAt, RunsLine, TakesLine, TakesAt};

use crate::head::Head;
use crate::member::Member;
use crate::play::run;
use mvd_dots::Refusal;
use mvd_input::{
    Command, Fault, Line, MOST_KEYS, View, add_index, add_view, first_line, line_of, read_input,
    text_of, write_out,
};
use mvd_rows::Defs;
use mvd_world::World;
use std::alloc::Global;
use std::io::{Read, Write};

/// The most bytes of a script.
const SCRIPT_MAX: usize = 16_777_216;

/// How much is printed at once.
const PIECE: usize = 65_536;

/// The most sites of a script.
const SITES_MAX: u64 = 16;

/// A script as far as it has been read: first its head, with its indexes and views, and then its sites.
#[derive(Drop)]
struct Script {
    alloc: Global,
    head: Option<Head>,
    defs: Defs,
    world: Option<Member>,
}

impl Script {
    fn new(alloc: Global) -> Script
        ensures { IsStage result Blank }
    {
        Script {
            alloc,
            head: None,
            defs: Defs::new(alloc),
            world: None,
        }
    }

    /// Runs one line, without its line feed, which has this number, and puts what it says in place of what `out` held.
    fn run(&mut self, number: u64, line: &[u8], out: &mut String) -> Result<(), Fault>
        ensures { RunsLine number line.now self.old self.new (string_bytes out.new) result }
    {
        out.clear();
        let Some(text) = text_of(line) else {
            return Err(Fault::Line(number));
        };
        if text.is_empty() {
            return Ok(());
        }
        match line_of(text) {
            Some(line) => self.take(number, line, out),
            None => Err(Fault::Line(number)),
        }
    }

    /// Takes the line of this number, if it may stand here.
    fn take(&mut self, number: u64, line: Line<'_>, out: &mut String) -> Result<(), Fault>
        requires { string_bytes out.old ≡ [] }
        ensures { TakesAt number line.entry self.old self.new (string_bytes out.new) result }
    {
        match self.takes(line, out) {
            Ok(true) => Ok(()),
            Ok(false) => Err(Fault::Line(number)),
            Err(fault) => Err(fault),
        }
    }

    /// Whether the line may stand here; it is taken then.
    fn takes(&mut self, line: Line<'_>, out: &mut String) -> Result<bool, Fault>
        requires { string_bytes out.old ≡ [] }
        ensures taken { IfOk result (λ is_taken.
            TakesLine line.entry self.old self.new is_taken (string_bytes out.new)) }
        ensures memory { IfErr result (λ fault. fault ≡ Stopped Memory) }
    {
        match line {
            Line::Sites(count) => Ok(self.set_sites(count)),
            Line::Max(count) => Ok(self.set_max(count)),
            Line::Index(field) => self.set_index(field),
            Line::View(view) => self.set_view(view),
            Line::At(site, command) => self.command(site, command, out),
        }
    }

    /// Whether this may be the number of sites: it is set once, before all else.
    fn set_sites(&mut self, count: u64) -> bool
        ensures { TakesLine (lines.Sites count) self.old self.new result [] }
    {
        if self.head.is_some() {
            return false;
        }
        if self.world.is_some() {
            return false;
        }
        if !is_within(count, SITES_MAX) {
            return false;
        }
        self.head = Some(Head {
            sites: count as u32,
            max_keys: None,
        });
        true
    }

    /// Whether this may be the most keys of a site: it is set once, between the number of sites and the first command.
    fn set_max(&mut self, count: u64) -> bool
        ensures { TakesLine (lines.Max count) self.old self.new result [] }
    {
        let Some(head) = self.head else {
            return false;
        };
        if head.max_keys.is_some() {
            return false;
        }
        if self.world.is_some() {
            return false;
        }
        if !is_within(count, u64::from(MOST_KEYS)) {
            return false;
        }
        self.head = Some(Head {
            sites: head.sites,
            max_keys: Some(count as u32),
        });
        true
    }

    /// Whether indexes and views may be set: between the number of sites and the first command.
    fn is_in_head(&self) -> bool
        ensures { IsTrue result ↔ (IsSome self.now.head × (self.now.world ≡ None)) }
    {
        self.head.is_some() && self.world.is_none()
    }

    /// Whether this may be one more index.
    fn set_index(&mut self, field: &str) -> Result<bool, Fault>
        ensures taken { IfOk result (λ is_taken. TakesLine (lines.Index field.entry) self.old self.new is_taken []) }
        ensures memory { IfErr result (λ fault. fault ≡ Stopped Memory) }
    {
        if !self.is_in_head() {
            return Ok(false);
        }
        let is_taken = add_index(self.alloc, &mut self.defs, field)?;
        Ok(is_taken)
    }

    /// Whether this may be one more view.
    fn set_view(&mut self, view: View<'_>) -> Result<bool, Fault>
        ensures taken { IfOk result (λ is_taken. TakesLine (lines.View view.entry) self.old self.new is_taken []) }
        ensures memory { IfErr result (λ fault. fault ≡ Stopped Memory) }
    {
        if !self.is_in_head() {
            return Ok(false);
        }
        let is_taken = add_view(self.alloc, &mut self.defs, view)?;
        Ok(is_taken)
    }

    /// Runs a command, and whether there were head lines before it.
    fn command(&mut self, site: u64, command: Command<'_>, out: &mut String) -> Result<bool, Fault>
        ensures taken { IfOk result (λ is_taken. TakesLine (lines.At site command.entry) self.old self.new is_taken
            (string_bytes out.new)) }
        ensures memory { IfErr result (λ fault. fault ≡ Stopped Memory) }
    {
        if !self.begin()? {
            return Ok(false);
        }
        self.run_at(site, command, out)?;
        Ok(true)
    }

    /// Whether there are sites. Where the head lines stand alone so far, their sites begin.
    fn begin(&mut self) -> Result<bool, Refusal>
        ensures begins { IfOk result (ScriptBegins self.old self.new) }
        ensures memory { IfErr result (λ refusal. refusal ≡ Refusal.Memory) }
    {
        if self.world.is_some() {
            return Ok(true);
        }
        let Some(head) = self.head else {
            return Ok(false);
        };
        let member = self.begun(head)?;
        self.world = Some(member);
        Ok(true)
    }

    /// Runs a command on one of the sites.
    fn run_at(&mut self, site: u64, command: Command<'_>, out: &mut String) -> Result<(), Refusal>
        ensures said { OnOk result (RunsAt site command.entry self.old self.new (string_bytes out.new)) }
        ensures memory { IfErr result (λ refusal. refusal ≡ Refusal.Memory) }
    {
        match &mut self.world {
            Some(member) => run(self.alloc, member, site, command, out),
            None => Ok(()),
        }
    }

    /// The sites of the head lines, with no key.
    fn begun(&self, head: Head) -> Result<Member, Refusal>
        ensures begun { IfOk result (λ member. IsWorld
            (setting_of head.sites (unwrap_or head.max_keys 1000000) self.now.defs) member.world nothing_yet) }
        ensures memory { IfErr result (λ refusal. refusal ≡ Memory) }
    {
        let max_keys = head.max_keys.unwrap_or(MOST_KEYS);
        let world = World::new(self.alloc, head.sites, max_keys, self.defs.copy()?)?;
        Ok(Member { world, site: 0 })
    }
}

/// Runs the script that the reader gives, and writes what its commands print.
///
/// It ends as `Line` at the first line that spells no command, may not stand there, or is no UTF-8, and as `Stopped`
/// where the script has over 16,777,216 bytes, the reader or the writer fails, or memory is refused. What was printed
/// before stays.
pub fn sim<R: Read, W: Write>(alloc: Global, reader: &mut R, writer: &mut W) -> Result<(), Fault>
    ensures played { Simulates (R.remaining reader.old) (R.remaining reader.new) (W.contents writer.old)
        (W.contents writer.new) result }
    ensures ends { IfErr result EndsEarly }
{
    match read_input(alloc, reader, SCRIPT_MAX) {
        Ok(text) => run_script(alloc, &text, writer),
        Err(fault) => Err(fault),
    }
}

/// Runs the lines of a script, and writes what they print.
fn run_script<W: Write>(alloc: Global, text: &[u8], writer: &mut W) -> Result<(), Fault>
    ensures played { RunsScript (lines_of text.now) (W.contents writer.old) (W.contents writer.new) result }
    ensures ends { IfErr result EndsEarly }
{
    let mut script = Script::new(alloc);
    let mut said = String::new(alloc);
    let mut out = String::new(alloc);
    run_lines(&mut script, text, &mut said, &mut out, writer)
}

/// The same, from a blank script on. `said` has room for what a line says, and `out` for what is to be written.
fn run_lines<W: Write>(
    script: &mut Script,
    text: &[u8],
    said: &mut String,
    out: &mut String,
    writer: &mut W,
) -> Result<(), Fault>
    requires blank { IsStage script.old Blank }
    requires empty { string_bytes out.old ≡ [] }
    ensures played { RunsScript (lines_of text.now) (W.contents writer.old) (W.contents writer.new) result }
    ensures ends { IfErr result EndsEarly }
{
    let mut number: u64 = 0;
    let mut rest = Some(text);
    while let Some(lines) = rest {
        let (line, after) = first_line(lines);
        number += 1;
        match run_line(script, number, line, said, out) {
            Ok(()) => rest = after,
            Err(fault) => {
                write_out(writer, out.as_str())?;
                return Err(fault);
            }
        }
        write_piece(writer, out)?;
    }
    write_out(writer, out.as_str())
}

/// Runs a line, and adds what it says to what is to be written.
fn run_line(
    script: &mut Script,
    number: u64,
    line: &[u8],
    said: &mut String,
    out: &mut String,
) -> Result<(), Fault>
    ensures { AddsLine number line.now script.old script.new (string_bytes out.old) (string_bytes out.new) result }
{
    match script.run(number, line, said) {
        Ok(()) => Ok(out.push_str(said.as_str())?),
        Err(fault) => Err(fault),
    }
}

/// Writes what is to be written, if it is a whole piece.
fn write_piece<W: Write>(writer: &mut W, out: &mut String) -> Result<(), Fault>
    ensures sent { OnOk result ((sent : List ℕ) × Appends (W.contents writer.old) (W.contents writer.new) sent
        × (string_bytes out.old ≡ sent ++ string_bytes out.new)) }
    ensures failed { IfErr result (λ fault. fault ≡ Stopped WriteFailed) }
{
    if out.len() >= PIECE {
        write_out(writer, out.as_str())?;
        out.clear();
    }
    Ok(())
}

/// Whether a number is at least 1, and no greater than this one.
fn is_within(count: u64, most: u64) -> bool
    ensures { IsTrue result ↔ ((0 < count) × (count ≤ most)) }
{
    0 < count && count <= most
}
