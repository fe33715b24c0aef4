//! Scans the table of volumes for broken constraints, and sums the sizes of the volumes of each pool.

ghost use Rattle.std.specs.Prelude.{◌≡◌, ℕ, List, IfOk, map};
ghost use Rattle.sqlite.specs.Held.{state};
ghost use Rattle.sqlite.specs.State.{HasCleanDisk};
ghost use Rattle.csi_sql.specs.Rows.{seen_volume};
ghost use Rattle.csi_sql.specs.Tables.{schema as our_schema};
ghost use Rattle.csi_constraints.specs.Scans.{IsInOrder};
ghost use Rattle.csi_keeper.specs.Totals.{total_of};
ghost use Rattle.csi_adoption.specs.Seen.{sums_of};
ghost use Rattle.csi_adoption.specs.Failing.{ScanFails};
ghost use Rattle.csi_adoption.specs.Judging.{SeesVolumes, total_in};
ghost use Rattle.csi_adoption.specs.Scanning.{Scans, SeenBy};

use crate::meta::Meta;
use crate::seen::VolumesSeen;
use crate::starts::{rising_start, unbroken, unbroken_test};
use crate::sums::pool_sums;
use csi_config::{Config, Pool};
use csi_constraints::{
    FirstBroken, FoldEach, HasCaps, HasParams, HasVolumeKinds, InfallibleTest, IsInPools, IsNamed,
    IsNumbered, IsSized, Rising, RowCount, TextSum, Weight, scan_volumes,
};
use csi_keeper::{Total, Totals};
use csi_sql::{Fold, IdleConnection};
use csi_types::copy_text;
use sqlite::{Alter, Error, ErrorCode, Row};
use std::alloc::{AllocError, Global};

// The folds over the rows of volumes. The numbers of the rows must rise.
#[derive(Drop)]
struct VolumesFold<'a> {
    kinds: FirstBroken<InfallibleTest<HasVolumeKinds>>,
    rising: Rising,
    number: FirstBroken<InfallibleTest<IsNumbered>>,
    name: FirstBroken<InfallibleTest<IsNamed>>,
    pool: FirstBroken<InfallibleTest<IsInPools<'a>>>,
    bytes: FirstBroken<InfallibleTest<IsSized>>,
    caps: FirstBroken<HasCaps>,
    params: FirstBroken<HasParams>,
    pool_bytes: FoldEach<TextSum>,
    pool_volumes: FoldEach<TextSum>,
    rows: RowCount,
}

impl Fold for VolumesFold<'_> {
    ghost use Rattle.csi_adoption.specs.Folding.{FoldsVolumes, VolumeTakesMemory};
    ghost use Rattle.csi_adoption.specs.facts.Starts.{volumes_start};

    ghost folds = { FoldsVolumes };

    ghost takes_memory = { VolumeTakesMemory };

    ghost starts = { volumes_start };

    fn add_row(&mut self, row: &Row) -> Result<(), Error> {
        self.kinds.add_row(row)?;
        self.rising.add_row(row)?;
        self.number.add_row(row)?;
        self.name.add_row(row)?;
        self.pool.add_row(row)?;
        self.bytes.add_row(row)?;
        self.caps.add_row(row)?;
        self.params.add_row(row)?;
        self.pool_bytes.add_row(row)?;
        self.pool_volumes.add_row(row)?;
        self.rows.add_row(row)?;
        Ok(())
    }
}

impl<'a> VolumesFold<'a> {
    ghost use Rattle.csi_adoption.specs.Folding.{BeginsVolumes, volumes_seen};

    // Makes the folds, which have not taken any row.
    fn new(alloc: Global, config: &'a Config, meta: Meta) -> Result<VolumesFold<'a>, AllocError>
        ensures { IfOk result (BeginsVolumes config.now meta) }
    {
        let pool_bytes = pool_sums(alloc, config.pools(), Weight::Number(2))?;
        let pool_volumes = pool_sums(alloc, config.pools(), Weight::One)?;
        let Meta { format, next } = meta;
        Ok(VolumesFold {
            kinds: unbroken_test(alloc, HasVolumeKinds, 0, 1),
            rising: rising_start(),
            number: unbroken_test(alloc, IsNumbered { next }, 0, 1),
            name: unbroken_test(alloc, IsNamed, 0, 1),
            pool: unbroken_test(alloc, IsInPools { config }, 0, 1),
            bytes: unbroken_test(alloc, IsSized, 0, 1),
            caps: unbroken(alloc, HasCaps { alloc }, 0, 1),
            params: unbroken(alloc, HasParams { alloc, format }, 0, 1),
            pool_bytes,
            pool_volumes,
            rows: RowCount { rows: 0 },
        })
    }

    // Returns the result of the scan. Moves the fields out in a separate function, in which no call can fail.
    fn into_seen(self, format: u32) -> VolumesSeen
        ensures { result ≡ volumes_seen format self.entry }
    {
        VolumesSeen {
            format,
            kinds: self.kinds.found,
            number: self.number.found,
            name: self.name.found,
            pool: self.pool.found,
            bytes: self.bytes.found,
            caps: self.caps.found,
            params: self.params.found,
            pool_bytes: self.pool_bytes.parts,
            pool_volumes: self.pool_volumes.parts,
            rows: self.rows.rows,
        }
    }
}

/// Scans the rows of volumes: finds broken constraints, and sums the sizes of the volumes of each pool. Fails
/// if the database or memory fails, or if the numbers of the rows do not rise.
pub(crate) fn see_volumes<S: Alter>(
    alloc: Global,
    conn: &mut IdleConnection<S>,
    config: &Config,
    meta: Meta,
) -> Result<VolumesSeen, Error>
    requires has_schema { HasCleanDisk (state S.Store conn.old) → conn.old.schema ≡ our_schema }
    ensures scans { Scans S.Store conn.old conn.new result }
    ensures failed { ScanFails S.Store conn.old conn.new result }
    ensures seen { SeenBy S.Store conn.old conn.new result
        (λ db rows. IsInOrder (map seen_volume (db 1)) rows)
        (λ rows seen. SeesVolumes config.now meta rows seen) }
{
    let mut fold = VolumesFold::new(alloc, config, meta)?;
    let scanned = scan_volumes(conn, &mut fold);
    let rises = fold.rising.good;
    let seen = fold.into_seen(meta.format);
    scanned?;
    if !rises {
        return Err(Error::SqliteFailure(ErrorCode::DatabaseCorrupt));
    }
    Ok(seen)
}

/// Returns the total of each pool, from the number of its volumes and the sum of their bytes. Both lists are
/// in the order of `pools`. If two pools have the same name, the total of the first pool counts.
pub(crate) fn totals_of(
    alloc: Global,
    pools: &[Pool],
    volumes: &[TextSum],
    bytes: &[TextSum],
) -> Result<Totals, AllocError>
    ensures { IfOk result (λ totals. (pool : List ℕ)
        → total_of totals pool ≡ total_in pools.now (sums_of volumes.now) (sums_of bytes.now) pool) }
{
    let Some((pool, more_pools)) = pools.split_first() else {
        return Ok(Totals::new(alloc));
    };
    let Some((count, more_volumes)) = volumes.split_first() else {
        return Ok(Totals::new(alloc));
    };
    let Some((sum, more_bytes)) = bytes.split_first() else {
        return Ok(Totals::new(alloc));
    };
    let mut totals = totals_of(alloc, more_pools, more_volumes, more_bytes)?;
    let total = Total {
        volumes: count.sum,
        bytes: sum.sum as u128,
    };
    totals.set(copy_text(alloc, pool.name.as_str())?, total)?;
    Ok(totals)
}
