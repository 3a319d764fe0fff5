//! Files of definitions, by the rules of a script's head.
ghost use Rattle.std.specs.Prelude.{◌≡◌, ◌≢◌, ◌<◌, ◌≤◌, true, false, length, Ok, Err, IfErr, IfNone, IfOk, IfSome};
ghost use Rattle.std.specs.Prelude.{MatchResult, OnErr, OnOk};
ghost use Rattle.mvd_dots.specs.declared.refusals.Refusal.TheVariants.{FrameTooLong, Memory};
ghost use Rattle.mvd_input.specs.declared.fault.Fault.TheVariants.{Stopped};
ghost use Rattle.mvd_input.specs.Definitions.{DefineAll, Defines, DefinesNothing, HasDefsFault, index_added};
ghost use Rattle.mvd_input.specs.Definitions.{IsDefinitionTaken, view_added};
ghost use Rattle.mvd_input.specs.Ends.{EndsEarly};
ghost use Rattle.mvd_input.specs.Hexadecimal.{lines_of};
ghost use Rattle.mvd_input.specs.Lines.{said};
ghost use Rattle.mvd_rows.specs.Defs.{no_definitions};
ghost use Rattle.std.specs.Str.{IsUtf8};

use crate::command::{Line, View, line_of};
use crate::fault::Fault;
use crate::hexadecimal::first_line;
use mvd_docs::{Field, ViewName};
use mvd_dots::Refusal;
use mvd_rows::Defs;
use std::alloc::Global;

/// The most bytes of a file of definitions.
pub const DEFS_MAX: usize = 65_536;

/// The indexes and views that the lines of a text define. Lines are a script's: an empty one, and one that begins
/// with `#`, says nothing.
///
/// It is `Stopped` with `FrameTooLong` where the text has over 65,536 bytes, and `Line` at the first line that
/// defines neither, or what may not be defined.
pub fn read_defs(alloc: Global, text: &[u8]) -> Result<Defs, Fault>
    ensures short { IfOk result (λ _. length text.now ≤ 65536) }
    ensures defined { IfOk result (λ defs. DefineAll (lines_of text.now) no_definitions defs) }
    ensures fault { IfErr result (HasDefsFault text.now) }
    ensures long { 65536 < length text.now → result ≡ Err (Stopped FrameTooLong) }
    ensures ends { IfErr result EndsEarly }
{
    if text.len() > DEFS_MAX {
        return Err(Fault::Stopped(Refusal::FrameTooLong));
    }
    let mut defs = Defs::new(alloc);
    let mut number: u64 = 0;
    let mut rest = Some(text);
    while let Some(lines) = rest {
        let (line, after) = first_line(lines);
        number += 1;
        match takes(alloc, line, &mut defs) {
            Ok(true) => rest = after,
            Ok(false) => return Err(Fault::Line(number)),
            Err(fault) => return Err(fault),
        }
    }
    Ok(defs)
}

/// Whether a line may stand in a file of definitions. What it defines is added then.
fn takes(alloc: Global, line: &[u8], defs: &mut Defs) -> Result<bool, Fault>
    ensures taken { result ≡ Ok true → Defines line.now defs.old defs.new }
    ensures nothing { result ≡ Ok false → DefinesNothing line.now defs.old }
    ensures memory { IfErr result (λ fault. fault ≡ Stopped Memory) }
{
    let Some(text) = text_of(line) else {
        return Ok(false);
    };
    if text.is_empty() {
        return Ok(true);
    }
    match line_of(text) {
        Some(Line::Index(field)) => add_index(alloc, defs, field),
        Some(Line::View(view)) => add_view(alloc, defs, view),
        _ => Ok(false),
    }
}

/// The text of a line, where it is UTF-8. It is empty where the line says nothing.
pub fn text_of(line: &[u8]) -> Option<&str>
    ensures found { IfSome result (λ text. text.now ≡ said line.now) }
    ensures utf8 { IfSome result (λ _. IsUtf8 line.now) }
    ensures none { IfNone result (IsUtf8 line.now → ⊥) }
{
    match str::from_utf8(line) {
        Ok(_) if line.starts_with(b"#") => Some(""),
        Ok(text) => Some(text),
        Err(_) => None,
    }
}

/// Whether this may be one more index, which it is then. Where memory is refused, nothing changes.
pub fn add_index(alloc: Global, defs: &mut Defs, field: &str) -> Result<bool, Fault>
    ensures taken { IfOk result (λ is_taken.
        IsDefinitionTaken (index_added defs.old field.now) is_taken defs.old defs.new) }
    ensures memory { IfErr result (λ fault. fault ≡ Stopped Memory) }
    ensures unchanged { OnErr result (defs.new ≡ defs.old) }
    ensures ends { IfErr result EndsEarly }
{
    taken(indexed(alloc, defs, field))
}

/// Whether this may be one more view, which it is then. Where memory is refused, nothing changes.
pub fn add_view(alloc: Global, defs: &mut Defs, view: View<'_>) -> Result<bool, Fault>
    ensures taken { IfOk result (λ is_taken.
        IsDefinitionTaken (view_added defs.old view.entry) is_taken defs.old defs.new) }
    ensures memory { IfErr result (λ fault. fault ≡ Stopped Memory) }
    ensures unchanged { OnErr result (defs.new ≡ defs.old) }
    ensures ends { IfErr result EndsEarly }
{
    taken(viewed(alloc, defs, view))
}

fn indexed(alloc: Global, defs: &mut Defs, field: &str) -> Result<(), Refusal>
    ensures ok { OnOk result (index_added defs.old field.now ≡ Ok defs.new) }
    ensures refused { IfErr result (λ refusal. refusal ≢ Memory → index_added defs.old field.now ≡ Err refusal) }
    ensures unchanged { OnErr result (defs.new ≡ defs.old) }
{
    defs.index(Field::read(alloc, field)?)
}

fn viewed(alloc: Global, defs: &mut Defs, view: View<'_>) -> Result<(), Refusal>
    ensures ok { OnOk result (view_added defs.old view.entry ≡ Ok defs.new) }
    ensures refused { IfErr result (λ refusal. refusal ≢ Memory → view_added defs.old view.entry ≡ Err refusal) }
    ensures unchanged { OnErr result (defs.new ≡ defs.old) }
{
    let name = ViewName::read(alloc, view.name)?;
    let group = Field::read(alloc, view.group)?;
    let sum = Field::read(alloc, view.sum)?;
    defs.view(name, group, sum)
}

/// Whether a definition was taken: it ends the reading where memory was refused.
fn taken(added: Result<(), Refusal>) -> Result<bool, Fault>
    ensures { MatchResult added (λ _. result ≡ Ok true)
        (λ refusal. (refusal ≡ Memory → result ≡ Err (Stopped Memory)) ×
        (refusal ≢ Memory → result ≡ Ok false)) }
{
    match added {
        Ok(()) => Ok(true),
        Err(Refusal::Memory) => Err(Fault::Stopped(Refusal::Memory)),
        Err(_) => Ok(false),
    }
}
