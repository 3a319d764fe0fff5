//! What a command line asks for that works on no file of a site.
ghost use Rattle.mvd_app.specs.Looped.{IsLooped};
ghost use Rattle.mvd_app.specs.Tasks.{IsMet, IsSimulated, IsTypedAt};
ghost use Rattle.mvd_input.specs.Orders.{IsSetUp};
ghost use Rattle.std.specs.Prelude.{◌≡◌};

use crate::looping::loop_run;
use crate::paths::Paths;
use crate::setups::config_in;
use crate::tokens::{first_of, tokens_in};
use mvd_client::{Dial, Gone, MeetingTerms, meet_run, remote_shell_run};
use mvd_dots::Refusal;
use mvd_hint::{Hint, Stop};
use mvd_input::{Fault, Setup};
use mvd_script::sim;
use std::alloc::Global;
use std::io::{BufRead, Write};
use std::net::{Net, SocketAddr};

/// Runs a script.
pub(crate) fn run_sim<'a, R: BufRead, W: Write>(
    alloc: Global,
    reader: &mut R,
    writer: &mut W,
) -> Result<(), Stop<'a>>
    ensures { IsSimulated (R.remaining reader.old) (R.remaining reader.new) (W.contents writer.old)
        (W.contents writer.new) result }
{
    match sim(alloc, reader, writer) {
        Ok(()) => Ok(()),
        Err(fault) => Err(Stop::in_input(fault, Hint::Script)),
    }
}

/// Serves the connection that lines spell.
pub(crate) fn run_loop<'a, N: Net, R: BufRead, W: Write>(
    rt: &N,
    paths: &Paths<'_>,
    setup: Setup<'a>,
    reader: &mut R,
    writer: &mut W,
) -> Result<(), Stop<'a>>
    requires { IsSetUp setup }
    ensures { IsLooped setup.entry (R.remaining reader.old) (R.remaining reader.new) (W.contents writer.old)
        (W.contents writer.new) result }
{
    let config = config_in(paths, setup)?;
    match loop_run(rt, paths.alloc(), reader, writer, config) {
        Ok(()) => Ok(()),
        Err(fault) => Err(unlooped(fault)),
    }
}

/// What a command is stopped with by a fault of `loop`.
fn unlooped<'a>(fault: Fault) -> Stop<'a>
    ensures { result.fault ≡ fault }
{
    match fault {
        // This is of the connection, too, and then not of the input.
        Fault::Stopped(Refusal::ReadFailed) => Stop::from(Refusal::ReadFailed),
        fault => Stop::in_input(fault, Hint::Hexadecimal),
    }
}

/// Answers lines through a server.
pub(crate) fn run_remote_shell<'a, D: Dial, R: BufRead, W: Write>(
    paths: &Paths<'_>,
    dial: &D,
    address: SocketAddr,
    idle: u32,
    token_file: Option<&'a str>,
    gone: &mut Gone<D::Dialed>,
    reader: &mut R,
    writer: &mut W,
) -> Result<(), Stop<'a>>
    ensures { IsTypedAt D.Dialed.Line (D.gives dial.now address) address token_file.entry gone.old gone.new
        (R.remaining reader.old) (R.remaining reader.new) (W.contents writer.old) (W.contents writer.new) result }
{
    let tokens = tokens_in(paths, token_file)?;
    remote_shell_run(
        dial,
        paths.alloc(),
        address,
        idle,
        first_of(tokens.as_ref()),
        gone,
        reader,
        writer,
    )
}

/// Runs a session of two servers.
pub(crate) fn run_meeting<'a, D: Dial, W: Write>(
    paths: &Paths<'_>,
    dial: &D,
    near: SocketAddr,
    far: SocketAddr,
    idle: u32,
    verbose: bool,
    token_file: Option<&'a str>,
    gone: &mut Gone<D::Dialed>,
    writer: &mut W,
) -> Result<(), Stop<'a>>
    ensures { IsMet D.Dialed.Line (D.gives dial.now) near far token_file.entry gone.old gone.new
        (W.contents writer.old) (W.contents writer.new) result }
{
    let tokens = tokens_in(paths, token_file)?;
    let terms = MeetingTerms {
        idle,
        token: first_of(tokens.as_ref()),
        verbose,
    };
    meet_run(
        dial,
        paths.alloc(),
        near,
        far,
        terms,
        gone,
        writer,
        &mut paths.errors(),
    )
}
