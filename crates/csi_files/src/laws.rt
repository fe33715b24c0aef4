//! Laws of runs: the State that the next run finds in the files, and the effect of many runs.

ghost use Rattle.csi_files.specs.Again.{AreFoundAgain};
ghost use Rattle.csi_files.specs.Lives.{LivesOnce, NumbersOnce, PathGoesOn, RunsGoOn};

use csi_config::Config;
use csi_server::laws::{numbers, retry};
use csi_tables::laws::one_state;
use sqlite::Start;
use sqlite_disk::Disk;

/// If the State of two files meets the invariant, and neither the disk nor memory fails, each opening of the
/// files adopts this State.
pub fn found_again<D: Disk>(config: &Config)
    ensures { AreFoundAgain D.Disk config.now }
{
    one_state();
}

/// A life of two files is a series of runs over them. Each run of
/// [`create_and_serve`](crate::Run::create_and_serve) continues the life of its files. This holds for each
/// way in which the run ends, and for all contents that a crash after it can leave. A run over files that
/// hold no database yet can begin a life.
///
/// The law does not cover one end of a run: an opening that fails while it reads the schema, because memory
/// is refused or a read fails. Such a run writes nothing (docs/THEOREMS.md, "From files to files").
pub fn went_on<D: Disk>(config: &Config)
    ensures { RunsGoOn D.Disk config.now }
{}

/// Each run of [`serve_path`](crate::Run::serve_path) continues the life of the files at its path. This holds
/// for each way in which the run ends, and for all contents that a crash after it can leave. [`went_on`]
/// states this for two given files. The files have the contents that `S` names, and a crash before the run
/// leaves these contents unchanged.
pub fn went_on_at<S: Start>(config: &Config)
    ensures { PathGoesOn S.Start config.now }
{}

/// If a client repeats each call until it gets a reply, it gets the same replies as if each request were
/// executed once. The State at the end is also the same. This holds even if runs end in stops. No other
/// client may change anything.
///
/// The first run may be over files that hold no database yet, and its first State must meet the invariant. A
/// run may end in any way that [`went_on`] covers. The calls of a run may fail with an internal error, which
/// does not count as a reply here, and replies may be lost. The next run is over any contents that a crash
/// may leave in the files.
pub fn lived(config: &Config)
    ensures { LivesOnce config.now }
{
    retry(config);
}

/// No two volumes ever get the same number. This holds over many runs, for any calls in each run, and also if
/// runs end in stops. The number for the next volume never falls, and a volume never gets the number of a
/// deleted volume. Only the mutable parameters of a volume change. So an id never names another volume.
///
/// The first run may be over files that hold no database yet, and its first State must meet the invariant.
/// Each later run is over any contents that a crash after the run before it may leave, as in [`lived`].
pub fn numbered(config: &Config)
    ensures { NumbersOnce config.now }
{
    numbers(config);
}
