//! What a site is set up with, of which the definitions may stand in a file.
ghost use Rattle.std.specs.Prelude.{◌≡◌, IfErr, IfOk, IsOkAnd, None};
ghost use Rattle.mvd_app.specs.Named.{IsDefsFault, StopsAtDefs};
ghost use Rattle.mvd_app.specs.Stored.{IsConfigFor};
ghost use Rattle.mvd_input.specs.Orders.{IsSetUp};
ghost use Rattle.mvd_rows.specs.Defs.{no_definitions};

use crate::paths::Paths;
use mvd_hint::Stop;
use mvd_input::{DEFS_MAX, Fault, Setup, read_defs};
use mvd_rows::Defs;
use mvd_site::Config;

/// What a site is set up with.
pub(crate) fn config_in<'a>(paths: &Paths<'_>, setup: Setup<'a>) -> Result<Config, Stop<'a>>
    requires { IsSetUp setup }
    ensures config { IfOk result (IsConfigFor setup.entry) }
    // It is stopped only by a file of definitions.
    ensures stopped { IfErr result (StopsAtDefs setup.entry.defs) }
{
    let defs = defs_in(paths, setup.defs)?;
    Ok(Config::new(setup.site, setup.max_keys, defs))
}

/// The indexes and views of a file of definitions, or none.
#[tactic(auto, using(crate::proofs::Stops::tells_defs))]
fn defs_in<'a>(paths: &Paths<'_>, file: Option<&'a str>) -> Result<Defs, Stop<'a>>
    ensures none { file.entry ≡ None → IsOkAnd result (λ defs. defs ≡ no_definitions) }
    ensures stopped { IfErr result (StopsAtDefs file.entry) }
{
    let Some(file) = file else {
        return Ok(Defs::new(paths.alloc()));
    };
    match defs_of(paths, file) {
        Ok(defs) => Ok(defs),
        Err(fault) => Err(Stop::in_defs(file, fault)),
    }
}

#[tactic(auto, using(crate::proofs::Stops::defs_refused, crate::proofs::Stops::defs_unread))]
fn defs_of(paths: &Paths<'_>, file: &str) -> Result<Defs, Fault>
    ensures { IfErr result IsDefsFault }
{
    let text = paths.read(file, DEFS_MAX)?;
    read_defs(paths.alloc(), &text)
}
