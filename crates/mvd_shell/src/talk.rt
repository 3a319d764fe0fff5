//! What is asked by one line, and what is printed of it.
ghost use Rattle.std.specs.Prelude.{◌≡◌, ◌≤◌, ◌+◌, ◌++◌, ℕ, [], IfErr, List, OnOk, Result, false, length, string_bytes};
ghost use Rattle.std.specs.Prelude.{◌&&◌, nat_le, string_capacity, string_len};
ghost use Rattle.mvd_dots.specs.Refusal.{number_of};
ghost use Rattle.mvd_print.specs.Text.{written_text};
ghost use Rattle.mvd_shell.specs.Talk.{AsksInTurn, MayHaveAsked, Prints_line, ShowsText, Speaks, SpeaksPages, TellsPage};
ghost use Rattle.mvd_shell.specs.Talk.{TurnsPage, is_taken, refused_of};
ghost use Rattle.mvd_shell.specs.Talk.{shell_text, told_text};
ghost use Rattle.mvd_shell.specs.Told.{tells_terms, unknown_text};

use crate::losses::Losses;
use crate::pages::next_page;
use crate::text_requests::request_of;
use itoa::Buffer;
use mvd_dots::{Dot, Refusal};
use mvd_input::Ask;
use mvd_peer::Endpoint;
use mvd_print::{FaultPlace, print_refusal, print_refusal_at, print_reply};
use mvd_wire::{Reply, Request};
use std::alloc::Global;
use std::fmt::Write as Print;

/// As long as the longest line that tells of a write, a message, a session or a refusal.
pub const LINE: usize = 64;

/// Asks, and puts what is printed of it in place of what `out` held: what is answered, of a list page after page, or
/// only how it is refused. A write that is lost is told as unknown, with what its reply was lost to.
#[tactic(auto, using(crate::proofs::Talking::prints_so, crate::proofs::Talking::asks_none, crate::proofs::Talking::speaks_asks, crate::proofs::Talking::none_left, crate::proofs::Talking::speaks_left))]
pub fn answer<A: Endpoint, L: Losses<A>>(
    alloc: Global,
    asked: &mut A,
    ask: Ask<'_>,
    out: &mut String,
) -> Result<(), Refusal>
    ensures told { OnOk result (Prints_line A.answers L.lost asked.old asked.new ask.entry (string_bytes out.new)) }
    ensures memory { IfErr result (λ refusal. refusal ≡ Refusal.Memory) }
    // Whatever was refused, what was asked was answered.
    ensures asked { AsksInTurn A.answers asked.old asked.new }
    ensures left { IfErr result (λ _. MayHaveAsked A.answers asked.old asked.new ask.entry) }
{
    begin_line(out)?;
    let before = L::lost(asked);
    let said = say(alloc, asked, ask, out);
    let is_known = before == L::lost(asked);
    end_line(alloc, ask, is_known, said, out)
}

/// Where something was refused, only that is printed: as a refusal, if it is known whether each write was done.
fn end_line(
    alloc: Global,
    ask: Ask<'_>,
    is_known: bool,
    said: Result<(), Refusal>,
    out: &mut String,
) -> Result<(), Refusal>
    ensures told { (told : Result (List ℕ) Refusal) → ShowsText told [] (string_bytes out.old) said →
        OnOk result (string_bytes out.new ≡ shell_text ask.entry is_known told) }
    ensures memory { IfErr result (λ refusal. refusal ≡ Refusal.Memory) }
{
    match said {
        Ok(()) => Ok(()),
        Err(refusal) => {
            out.clear();
            if is_known {
                print_refused(alloc, ask, refusal, out)
            } else {
                print_unknown(refusal, out)
            }
        }
    }
}

/// Prints a refusal; of the document that a put has, with the place of what is wrong.
fn print_refused(
    alloc: Global,
    ask: Ask<'_>,
    refusal: Refusal,
    out: &mut String,
) -> Result<(), Refusal>
    ensures text { OnOk result (string_bytes out.new ≡ string_bytes out.old ++ refused_of ask.entry refusal) }
    ensures memory { IfErr result (λ refusal. refusal ≡ Refusal.Memory) }
{
    match ask {
        Ask::Put { document, .. } if is_of_document(refusal) => {
            let place = FaultPlace::find(alloc, refusal, document)?;
            Ok(print_refusal_at(refusal, &place, out)?)
        }
        _ => Ok(print_refusal(refusal, out)?),
    }
}

/// Whether a refusal says what is wrong with a document.
fn is_of_document(refusal: Refusal) -> bool
    ensures { result ≡ (nat_le 3 (number_of refusal) && nat_le (number_of refusal) 6) }
{
    let number = refusal.number();
    3 <= number && number <= 6
}

/// Prints that it is unknown whether a write was done, and what its reply was lost to.
fn print_unknown(refusal: Refusal, out: &mut String) -> Result<(), Refusal>
    ensures text { OnOk result (string_bytes out.new ≡ string_bytes out.old ++ unknown_text refusal) }
    ensures memory { IfErr result (λ refusal. refusal ≡ Refusal.Memory) }
{
    let number = refusal.number();
    let name = refusal.name();
    writeln!(out, "unknown {number} {name}")?;
    Ok(())
}

/// Takes away what was printed, and makes room: nothing is done for which there is no room to tell it.
pub fn begin_line(out: &mut String) -> Result<(), Refusal>
    ensures empty { string_bytes out.new ≡ [] }
    ensures memory { IfErr result (λ refusal. refusal ≡ Refusal.Memory) }
{
    out.clear();
    out.reserve(LINE)?;
    Ok(())
}

/// Where something was refused, only the refusal is printed.
pub fn settle(said: Result<(), Refusal>, out: &mut String) -> Result<(), Refusal>
    ensures told { (told : Result (List ℕ) Refusal) → ShowsText told [] (string_bytes out.old) said →
        OnOk result (string_bytes out.new ≡ told_text told) }
    ensures memory { IfErr result (λ refusal. refusal ≡ Refusal.Memory) }
{
    match said {
        Ok(()) => Ok(()),
        Err(refusal) => {
            out.clear();
            print_refusal(refusal, out)?;
            Ok(())
        }
    }
}

/// Asks, and prints what is answered. A refusal is not printed but given back.
pub fn say<A: Endpoint>(
    alloc: Global,
    asked: &mut A,
    ask: Ask<'_>,
    out: &mut String,
) -> Result<(), Refusal>
    ensures { Speaks A.answers asked.old asked.new ask.entry (string_bytes out.old) (string_bytes out.new) result }
{
    match request_of(alloc, asked, ask) {
        Ok(request) => say_pages(alloc, asked, ask, request, out),
        Err(refusal) => Err(refusal),
    }
}

/// Asks for page after page from a request on, and prints them. Nothing is asked for which there is no room to tell
/// that it was done.
fn say_pages<A: Endpoint>(
    alloc: Global,
    asked: &mut A,
    ask: Ask<'_>,
    request: Request,
    out: &mut String,
) -> Result<(), Refusal>
    ensures { SpeaksPages A.answers asked.old asked.new ask.entry request (string_bytes out.old)
        (string_bytes out.new) result }
{
    let mut request = request;
    for _ in 0..u64::MAX {
        if out.reserve(LINE).is_err() {
            drop(request);
            return Err(Refusal::Memory);
        }
        match turn(alloc, asked, ask, request, out) {
            Ok(Some(next)) => request = next,
            Ok(None) => return Ok(()),
            Err(refusal) => return Err(refusal),
        }
    }
    // More pages than can be counted are more than memory holds.
    drop(request);
    Err(Refusal::Memory)
}

/// Asks for one page, prints it, and gives the request for the next one where more is left.
fn turn<A: Endpoint>(
    alloc: Global,
    asked: &mut A,
    ask: Ask<'_>,
    request: Request,
    out: &mut String,
) -> Result<Option<Request>, Refusal>
    requires { string_len out.old + 64 ≤ string_capacity out.old }
    ensures { TurnsPage A.answers asked.old asked.new ask.entry request (string_bytes out.old)
        (string_bytes out.new) result }
{
    let reply = asked.ask(request);
    let told = tell(alloc, ask, &reply, out);
    drop(reply);
    told
}

/// Prints a reply, and gives the request for the next page where more is left.
fn tell(
    alloc: Global,
    ask: Ask<'_>,
    reply: &Reply,
    out: &mut String,
) -> Result<Option<Request>, Refusal>
    requires { string_len out.old + 64 ≤ string_capacity out.old }
    ensures { TellsPage ask.entry reply.now (string_bytes out.old) (string_bytes out.new) result }
{
    match reply {
        Reply::Written(dot) => {
            put_written(*dot, out);
            Ok(None)
        }
        Reply::Done => {
            put_word("ok\n", out);
            Ok(None)
        }
        reply => tell_page(alloc, ask, reply, out),
    }
}

/// The same of a reply that does not tell that a write was done.
fn tell_page(
    alloc: Global,
    ask: Ask<'_>,
    reply: &Reply,
    out: &mut String,
) -> Result<Option<Request>, Refusal>
    requires { is_taken reply.now ≡ false }
    ensures { TellsPage ask.entry reply.now (string_bytes out.old) (string_bytes out.new) result }
{
    match print_reply(alloc, has_terms(ask), reply, out) {
        Ok(()) => next_page(alloc, ask, reply),
        Err(refusal) => Err(refusal),
    }
}

/// Whether places are told with their terms.
fn has_terms(ask: Ask<'_>) -> bool
    ensures { result ≡ tells_terms ask.entry }
{
    matches!(ask, Ask::Range { .. })
}

/// Tells that a put was taken, and its dot, where there is room for a line.
fn put_written(dot: Dot, out: &mut String)
    requires { string_len out.old + 64 ≤ string_capacity out.old }
    ensures { string_bytes out.new ≡ string_bytes out.old ++ written_text dot }
{
    let mut site = Buffer::new();
    let mut counter = Buffer::new();
    put_word("dot ", out);
    put_word(site.format(u64::from(dot.site())), out);
    put_word(":", out);
    put_word(counter.format(dot.counter()), out);
    put_word("\n", out);
}

/// Prints a word, where there is room for it.
fn put_word(word: &str, out: &mut String)
    requires { string_len out.old + length word.now ≤ string_capacity out.old }
    ensures text { string_bytes out.new ≡ string_bytes out.old ++ word.now }
    ensures len { string_len out.new ≡ string_len out.old + length word.now }
    ensures room { string_capacity out.old ≤ string_capacity out.new }
{
    match out.push_str(word) {
        Ok(()) => {}
        Err(_) => unreachable!(),
    }
}
