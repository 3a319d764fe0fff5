//! What a site is set up with.
use mvd_dots::Refusal;
use mvd_rows::Defs;
use std::marker::Model;

/// A site's number, how many keys it may hold, and its indexes and views.
#[derive(Drop)]
pub struct Config {
    site: u32,
    max_keys: u32,
    defs: Defs,
}

impl Model for Config {
    ghost use Rattle.mvd_kept.specs.Config.{ConfigValue, config_code, IsConfig};

    ghost Value = { ConfigValue };

    ghost coded = { config_code };

    ghost view = { λ c. record { site = c.site; max_keys = c.max_keys; defs = c.defs } };

    ghost invariant = { λ c. IsConfig c.site c.max_keys };
}

impl Config {
    ghost use Rattle.std.specs.Prelude.{◌≡◌, Ok};
    ghost use Rattle.mvd_dots.specs.Answer.{IsAnswer};
    ghost use Rattle.mvd_kept.specs.Config.{ConfigValue, IsConfig};

    /// A site of this number, at least 1, that may hold this many keys, 1 to 1,000,000.
    pub fn new(site: u32, max_keys: u32, defs: Defs) -> Config
        requires { IsConfig site max_keys }
        ensures { result ≡ record { site = site; max_keys = max_keys; defs = defs } }
    {
        Config {
            site,
            max_keys,
            defs,
        }
    }

    pub fn site(&self) -> u32
        ensures site { result ≡ self.now.site }
        ensures valid { IsConfig self.now.site self.now.max_keys }
    {
        self.site
    }

    pub fn max_keys(&self) -> u32
        ensures max_keys { result ≡ self.now.max_keys }
        ensures valid { IsConfig self.now.site self.now.max_keys }
    {
        self.max_keys
    }

    /// The indexes and the views.
    pub fn defs(&self) -> &Defs
        ensures { result.now ≡ self.now.defs }
    {
        &self.defs
    }

    pub fn copy(&self) -> Result<Config, Refusal>
        ensures { IsAnswer result (Ok self.now) }
    {
        let defs = self.defs.copy()?;
        Ok(Config {
            site: self.site,
            max_keys: self.max_keys,
            defs,
        })
    }
}
