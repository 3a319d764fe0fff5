//! The commands of a script.
ghost use Rattle.std.specs.Prelude.{◌≡◌, IfErr, OnOk, Result, string_bytes};
ghost use Rattle.mvd_dots.specs.Answer.{IsAnswer};
ghost use Rattle.mvd_keys.specs.Key.{key_of_text};
ghost use Rattle.mvd_script.specs.Script.{TellsSend, TellsStep, site_in};
ghost use Rattle.mvd_script.specs.Staged.{Acts, ActsFor, CommandSays};

use crate::member::Member;
use crate::printing::print_outcome;
use mvd_dots::Refusal;
use mvd_input::Command;
use mvd_keys::Key;
use mvd_print::print_none_such;
use mvd_shell::{begin_line, say, settle};
use mvd_world::Step;
use std::alloc::Global;

/// Runs a command on a site, and puts what it says, or only how it is refused, in place of what `out` held.
pub fn run(
    alloc: Global,
    member: &mut Member,
    site: u64,
    command: Command<'_>,
    out: &mut String,
) -> Result<(), Refusal>
    ensures said { OnOk result (CommandSays (site_in site) command.entry member.old.world member.new.world
        (string_bytes out.new)) }
    ensures memory { IfErr result (λ refusal. refusal ≡ Refusal.Memory) }
{
    begin_line(out)?;
    member.site = site_of(site);
    if member.world.site(member.site).is_none() {
        print_none_such(out)?;
        return Ok(());
    }
    let said = play(alloc, member, command, out);
    settle(said, out)
}

/// The site of this number, or 0, which is none.
fn site_of(number: u64) -> u32
    ensures { result ≡ site_in number }
{
    u32::try_from(number).unwrap_or(0)
}

fn play(
    alloc: Global,
    member: &mut Member,
    command: Command<'_>,
    out: &mut String,
) -> Result<(), Refusal>
    ensures { Acts command.entry member.old member.new (string_bytes out.old) (string_bytes out.new) result }
{
    match command {
        Command::Ask(ask) => say(alloc, member, ask, out),
        Command::Send { key } => send(alloc, member, key, out),
        Command::Receive { message } => {
            let site = member.site;
            take(member, Step::Receive { site, message }, out)
        }
        Command::Sync { peer } => {
            let step = Step::Session {
                local: member.site,
                peer: site_of(peer),
            };
            take(member, step, out)
        }
    }
}

/// Sends a site's state of a key.
fn send(alloc: Global, member: &mut Member, key: &str, out: &mut String) -> Result<(), Refusal>
    ensures { ActsFor
        (λ setting before after told. (read : Result Key Refusal) × IsAnswer read (key_of_text key.now)
        × TellsSend setting member.old.site read before after told)
        member.old.world member.new.world (string_bytes out.old) (string_bytes out.new) result }
{
    match Key::read(alloc, key) {
        Ok(key) => {
            let site = member.site;
            take(member, Step::Send { site, key }, out)
        }
        Err(refusal) => Err(refusal),
    }
}

/// Takes a step, and prints what it comes to.
fn take(member: &mut Member, step: Step, out: &mut String) -> Result<(), Refusal>
    ensures { ActsFor (λ setting before after told. TellsStep setting step before after told)
        member.old.world member.new.world (string_bytes out.old) (string_bytes out.new) result }
{
    let outcome = member.world.step(&step);
    let told = print_outcome(&outcome, out);
    drop(outcome);
    drop(step);
    told
}
