//! What becomes of a file that is open: it is removed, replaced or cut, or its log is.
ghost use Rattle.std.specs.Prelude.{◌≡◌, ◌↔◌, IsTrue};
ghost use Rattle.mvd_hint.specs.Harm.{bars_closing, change_of, harm_of};

use thiserror::Error;

/// What is known of an open file by its name: the device and the number that tell it from all others, its bytes, and
/// whether the first of them are zero, as they are of a file that was cut and then written further on.
#[derive(Debug, Clone, Copy)]
pub struct Mark {
    pub device: u64,
    pub number: u64,
    pub length: u64,
    pub is_blank: bool,
}

/// What the system tells of a name.
#[derive(Debug, Clone, Copy)]
pub enum Found {
    /// Nothing that can be relied on.
    Untold,
    Missing,
    There(Mark),
}

/// What became of an open file.
#[derive(Debug, Clone, Copy)]
pub enum Change {
    Removed,
    Replaced,
    Cut,
}

/// What became of the file of a site, or of its log, while it was open.
#[derive(Debug, Clone, Copy, Error)]
pub enum Harm {
    #[error("was removed or renamed while it was open")]
    Removed,
    #[error("was replaced by another file while it was open")]
    Replaced,
    #[error("was cut while it was open")]
    Cut,
    #[error("had its log removed while it was open")]
    LogRemoved,
    #[error("had its log replaced by another file while it was open")]
    LogReplaced,
    #[error("had its log cut while it was open")]
    LogCut,
}

impl Mark {
    /// What became of the file that had this mark, by what its name leads to now.
    pub fn change(self, found: Found) -> Option<Change>
        ensures { result ≡ change_of self found }
    {
        match found {
            Found::Untold => None,
            Found::Missing => Some(Change::Removed),
            Found::There(now) => self.change_to(now),
        }
    }

    fn change_to(self, now: Mark) -> Option<Change>
        ensures { result ≡ change_of self (Found.There now) }
    {
        if now.device != self.device || now.number != self.number {
            return Some(Change::Replaced);
        }
        if now.length < self.length || (now.is_blank && !self.is_blank) {
            return Some(Change::Cut);
        }
        None
    }
}

impl Harm {
    /// The harm that came to a site of which the file and the log changed so: that of the file goes first.
    pub fn of(file: Option<Change>, log: Option<Change>) -> Option<Harm>
        ensures { result ≡ harm_of file log }
    {
        match (file, log) {
            (Some(Change::Removed), _) => Some(Harm::Removed),
            (Some(Change::Replaced), _) => Some(Harm::Replaced),
            (Some(Change::Cut), _) => Some(Harm::Cut),
            (None, Some(Change::Removed)) => Some(Harm::LogRemoved),
            (None, Some(Change::Replaced)) => Some(Harm::LogReplaced),
            (None, Some(Change::Cut)) => Some(Harm::LogCut),
            (None, None) => None,
        }
    }

    /// Whether the file is left as after a kill. A file or a log that was cut has holes, which a close would copy. Of a
    /// file that was removed the log alone is left, which a close would empty.
    pub fn bars_closing(self) -> bool
        ensures { IsTrue result ↔ IsTrue (bars_closing self) }
    {
        matches!(self, Harm::Removed | Harm::Cut | Harm::LogCut)
    }
}
