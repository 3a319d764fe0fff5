//! What follows of commands, each law as the contract of an empty function.
ghost use Rattle.std.specs.Prelude.{◌⊎◌, ◌∷◌, ℕ, List, map};
ghost use Rattle.mvd_app.specs.Commands.{AreInTurn, Command, run_of};
ghost use Rattle.mvd_model.specs.TheStore.{Knows, Promise};
ghost use Rattle.mvd_runs.specs.Files.{CarriedRuns, IsFile, IsNewFile};
ghost use Rattle.sqlite.specs.Recovery.{Image};

use sqlite::FileStore;
use sqlite_disk::Disk;
use sqlite_trees::store::Store;

/// Commands on one file, one after the other, keep the promise of the store, whether each closed the file or was
/// stopped: what clause `file` of `run` says of each of them is all that this takes. The first found the file of a site,
/// or a new one.
pub fn commands_keep_the_promise<D: Disk + Drop>()
    ensures { (site : ℕ) (image : Image) (a : Knows) (first : Command ⟦<FileStore<D> as Store>⟧ site)
        (commands : List (Command ⟦<FileStore<D> as Store>⟧ site)) → IsFile a site image ⊎ IsNewFile a site image
        → AreInTurn ⟦<FileStore<D> as Store>⟧ image (first ∷ commands)
        → (it : CarriedRuns a site image (map (run_of ⟦<FileStore<D> as Store>⟧) (first ∷ commands)))
        × Promise it.events it.end }
{}
