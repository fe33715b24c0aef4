//! A keeper of volumes over the tables of a database.

ghost use Rattle.std.specs.Prelude.{◌≡◌, ◌≤◌, ◌^◌, [], None, false, IfOk, IsTrue, OnErr, is_some};
ghost use Rattle.std.specs.FinMap.{get};
ghost use Rattle.std.specs.Option.{option_map};
ghost use Rattle.csi_keeper.specs.Listing.{IsPageWithNodes};
ghost use Rattle.csi_keeper.specs.State.{IsBounded, attached, attached_at, count_at, named, page, sizes, used};

use crate::changes::{NUMBERS, make};
use crate::fault::{TablesError, store_answer};
use crate::read;
use csi_keeper::{
    Attachment, CapKey, Change, Health, Keeper, PageWithNodes, StoreFault, Totals, Usage, Volume,
};
use csi_sql::IdleConnection;
use csi_types::{Items, Text};
use sqlite::{Alter, Error};
use std::alloc::Global;
use std::cell::Cell;

/// A keeper over the tables of a database. The rows of the tables represent its State.
///
/// - Each change is made in one transaction. Before the change, removing a volume and changing parameters
///   read the row of the volume in a further transaction. A stop leaves the whole change or nothing of it.
///   After `Ok` a stop leaves no other State than the State with the change. After a refusal a stop leaves a
///   State that it could also have left before the call, or the State with the change.
/// - After a change fails, also for lack of memory, each further call fails with `Down`. A failed read has no
///   effect on later calls.
/// - `Refused` means that the database refused the call, for example after a fault of the disk, or that a row
///   cannot be decoded. A change is also refused if no row can have its number, or if the total of a pool
///   cannot count the volume. `Refused` never means that memory was refused.
/// - The keeper has the totals of the pools outside the tables, so reading them needs no transaction.
/// - No call changes the connection's limit on steps. A read of a number of 2^63 or above, which no row has,
///   takes no memory.
///
/// These promises hold while the database returns what was written to it, that is, while the store's
/// `HasCleanDisk` holds at the end of a call.
///
/// # Not promised
///
/// If a fault of the disk has shut the connection, the contract does not say which State the rows represent,
/// except that the totals of its pools are unchanged. Reads of rows then fail. Reads of totals still succeed,
/// and a stop leaves a State that it could also have left before.
#[derive(Drop)]
pub struct Tables<S: Alter> {
    pub(crate) conn: IdleConnection<S>,
    totals: Totals,
    health: Health,
    // The database's error in the first call that the database refused, or `None`.
    cause: Cell<Option<Error>>,
}

impl<S: Alter> Tables<S> {
    // Makes a keeper over a connection whose tables represent a State, with the totals of the State's pools.
    pub(crate) fn new(conn: IdleConnection<S>, totals: Totals) -> Tables<S>
        ensures over { (result.conn ≡ conn) × (result.totals ≡ totals) }
        ensures fresh { (result.health.is_down ≡ false) × (result.health.refusals ≡ 0) }
    {
        Tables {
            conn,
            totals,
            health: Health::new(),
            cause: Cell::new(None),
        }
    }

    // Stores the database's error if the call failed for it, unless an earlier error is stored.
    fn note<T>(&self, answer: &Result<T, TablesError>) {
        if let Err(error) = answer {
            if self.cause.get().is_none() {
                self.cause.set(error.cause);
            }
        }
    }

    /// Returns the first error with which the database refused a call, such as a full disk or a value that
    /// does not have the type of its column. Returns `None` if there was no such error. Lack of memory, and
    /// bytes of a column that cannot be decoded, are not errors of the database.
    pub fn cause(&self) -> Option<Error> {
        self.cause.get()
    }

    /// Returns true if the keeper is down. If it is down, each further call fails with `Down`. A failed
    /// change brings the keeper down, also if the change failed for lack of memory.
    pub fn is_down(&self) -> bool
        ensures { result ≡ self.now.health.is_down }
    {
        self.health.is_down
    }
}

impl<S: Alter> Keeper for Tables<S> {
    ghost use Rattle.csi_keeper.specs.Keeper.{Applies, Reads};
    ghost use Rattle.csi_tables.specs.Keeping.{TablesRefuses, refuses_change, tables_model};
    ghost use Rattle.csi_tables.specs.Reading.{ReportsAttached, ReportsAttachments, ReportsBelow, ReportsCaps, ReportsCount, ReportsExistence, ReportsNamed, ReportsNext, ReportsNumbered, ReportsPage, ReportsPageBelow, ReportsSizes};

    ghost model = { λ t. tables_model S.Store t };

    fn refusals(&self) -> u64 {
        self.health.refusals
    }

    fn next_number(&mut self) -> Result<u64, StoreFault>
        ensures reads { Reads (tables_model S.Store self.old) (tables_model S.Store self.new) result
            (λ s n. n ≡ s.next) }
        ensures exact { IfOk result (λ n. ReportsNext S.Store self.old.conn self.new.conn n) }
        ensures refused { TablesRefuses S.Store self.old self.new ⊥ result }
        ensures limit { self.new.conn.step_limit ≡ self.old.conn.step_limit }
    {
        self.health.start_call()?;
        let answer = read::next_number(&mut self.conn);
        self.note(&answer);
        self.health.finish_call(store_answer(answer))
    }

    fn by_name(&mut self, alloc: Global, name: &str) -> Result<Option<Volume>, StoreFault>
        ensures reads { Reads (tables_model S.Store self.old) (tables_model S.Store self.new) result
            (λ s v. v ≡ named s name.now) }
        ensures exact { IfOk result (ReportsNamed S.Store self.old.conn self.new.conn name.now) }
        ensures refused { TablesRefuses S.Store self.old self.new ⊥ result }
        ensures limit { self.new.conn.step_limit ≡ self.old.conn.step_limit }
    {
        self.health.start_call()?;
        let answer = read::by_name(alloc, &mut self.conn, name);
        self.note(&answer);
        self.health.finish_call(store_answer(answer))
    }

    fn by_number(&mut self, alloc: Global, number: u64) -> Result<Option<Volume>, StoreFault>
        ensures reads { Reads (tables_model S.Store self.old) (tables_model S.Store self.new) result
            (λ s v. v ≡ get s.volumes number) }
        ensures exact { IfOk result (ReportsBelow number None
            (ReportsNumbered S.Store self.old.conn self.new.conn number)) }
        ensures refused { TablesRefuses S.Store self.old self.new ⊥ result }
        ensures limit { self.new.conn.step_limit ≡ self.old.conn.step_limit }
        ensures error_only_if { 2 ^ 63 ≤ number → OnErr result (IsTrue self.old.health.is_down) }
    {
        self.health.start_call()?;
        if number >= NUMBERS {
            return Ok(None);
        }
        let answer = read::by_number(alloc, &mut self.conn, number);
        self.note(&answer);
        self.health.finish_call(store_answer(answer))
    }

    fn has_volume(&mut self, number: u64) -> Result<bool, StoreFault>
        ensures reads { Reads (tables_model S.Store self.old) (tables_model S.Store self.new) result
            (λ s has. has ≡ is_some (get s.volumes number)) }
        ensures exact { IfOk result (ReportsBelow number false
            (ReportsExistence S.Store self.old.conn self.new.conn number)) }
        ensures refused { TablesRefuses S.Store self.old self.new ⊥ result }
        ensures limit { self.new.conn.step_limit ≡ self.old.conn.step_limit }
        ensures error_only_if { 2 ^ 63 ≤ number → OnErr result (IsTrue self.old.health.is_down) }
    {
        self.health.start_call()?;
        if number >= NUMBERS {
            return Ok(false);
        }
        let answer = read::has_volume(&mut self.conn, number);
        self.note(&answer);
        self.health.finish_call(store_answer(answer))
    }

    fn caps_of(&mut self, alloc: Global, number: u64) -> Result<Option<Items<CapKey>>, StoreFault>
        ensures reads { Reads (tables_model S.Store self.old) (tables_model S.Store self.new) result
            (λ s keys. keys ≡ option_map (λ v. v.caps) (get s.volumes number)) }
        ensures exact { IfOk result (ReportsCaps S.Store self.old.conn self.new.conn number) }
        ensures refused { TablesRefuses S.Store self.old self.new ⊥ result }
        ensures limit { self.new.conn.step_limit ≡ self.old.conn.step_limit }
        ensures error_only_if { 2 ^ 63 ≤ number → OnErr result (IsTrue self.old.health.is_down) }
    {
        match self.by_number(alloc, number)? {
            Some(volume) => Ok(Some(volume.caps)),
            None => Ok(None),
        }
    }

    fn attachments(&mut self, alloc: Global, number: u64) -> Result<Items<Attachment>, StoreFault>
        ensures reads { Reads (tables_model S.Store self.old) (tables_model S.Store self.new) result
            (λ s xs. xs ≡ attached s number) }
        ensures exact { IfOk result (ReportsBelow number []
            (ReportsAttachments S.Store self.old.conn self.new.conn number)) }
        ensures refused { TablesRefuses S.Store self.old self.new ⊥ result }
        ensures limit { self.new.conn.step_limit ≡ self.old.conn.step_limit }
        ensures error_only_if { 2 ^ 63 ≤ number → OnErr result (IsTrue self.old.health.is_down) }
    {
        self.health.start_call()?;
        if number >= NUMBERS {
            return Ok(Items::new(alloc));
        }
        let answer = read::attachments(alloc, &mut self.conn, number);
        self.note(&answer);
        self.health.finish_call(store_answer(answer))
    }

    fn attached_at(&mut self, alloc: Global, node: &str) -> Result<Items<u64>, StoreFault>
        ensures reads { Reads (tables_model S.Store self.old) (tables_model S.Store self.new) result
            (λ s xs. xs ≡ attached_at s node.now) }
        ensures exact { IfOk result (ReportsAttached S.Store self.old.conn self.new.conn node.now) }
        ensures refused { TablesRefuses S.Store self.old self.new ⊥ result }
        ensures limit { self.new.conn.step_limit ≡ self.old.conn.step_limit }
    {
        self.health.start_call()?;
        let answer = read::attached_at(alloc, &mut self.conn, node);
        self.note(&answer);
        self.health.finish_call(store_answer(answer))
    }

    // Reads the numbers of the node's volumes and counts them, as the tables have no index of nodes.
    fn count_at(&mut self, alloc: Global, node: &Text) -> Result<u64, StoreFault>
        ensures reads { Reads (tables_model S.Store self.old) (tables_model S.Store self.new) result
            (λ s n. n ≡ count_at s node.now) }
        ensures exact { IfOk result (ReportsCount S.Store self.old.conn self.new.conn node.now) }
        ensures refused { TablesRefuses S.Store self.old self.new ⊥ result }
        ensures limit { self.new.conn.step_limit ≡ self.old.conn.step_limit }
    {
        let numbers = self.attached_at(alloc, node.as_str())?;
        Ok(numbers.len() as u64)
    }

    fn sizes_in(&mut self, alloc: Global, pool: &str) -> Result<Items<u64>, StoreFault>
        ensures reads { Reads (tables_model S.Store self.old) (tables_model S.Store self.new) result
            (λ s xs. xs ≡ sizes s pool.now) }
        ensures exact { IfOk result (ReportsSizes S.Store self.old.conn self.new.conn pool.now) }
        ensures refused { TablesRefuses S.Store self.old self.new ⊥ result }
        ensures limit { self.new.conn.step_limit ≡ self.old.conn.step_limit }
    {
        self.health.start_call()?;
        let answer = read::sizes_in(alloc, &mut self.conn, pool);
        self.note(&answer);
        self.health.finish_call(store_answer(answer))
    }

    fn used_in(&mut self, pool: &Text) -> Result<Usage, StoreFault>
        ensures reads { Reads (tables_model S.Store self.old) (tables_model S.Store self.new) result
            (λ s u. u ≡ used s pool.now) }
        ensures error_only_if { OnErr result (IsTrue self.old.health.is_down) }
        ensures limit { self.new.conn.step_limit ≡ self.old.conn.step_limit }
    {
        self.health.start_call()?;
        Ok(self.totals.usage(pool))
    }

    fn page(&mut self, alloc: Global, after: u64, count: u32) -> Result<Items<Volume>, StoreFault>
        ensures reads { Reads (tables_model S.Store self.old) (tables_model S.Store self.new) result
            (λ s xs. xs ≡ page s after count) }
        ensures exact { IfOk result (ReportsBelow after []
            (ReportsPage S.Store self.old.conn self.new.conn after count)) }
        ensures refused { TablesRefuses S.Store self.old self.new ⊥ result }
        ensures limit { self.new.conn.step_limit ≡ self.old.conn.step_limit }
        ensures error_only_if { 2 ^ 63 ≤ after → OnErr result (IsTrue self.old.health.is_down) }
    {
        self.health.start_call()?;
        if after >= NUMBERS {
            return Ok(Items::new(alloc));
        }
        let answer = read::page(alloc, &mut self.conn, after, count);
        self.note(&answer);
        self.health.finish_call(store_answer(answer))
    }

    fn page_with_nodes(
        &mut self,
        alloc: Global,
        after: u64,
        count: u32,
    ) -> Result<PageWithNodes, StoreFault>
        ensures reads { Reads (tables_model S.Store self.old) (tables_model S.Store self.new) result
            (λ s p. IsPageWithNodes s after count p) }
        ensures exact { IfOk result (ReportsPageBelow S.Store self.old.conn self.new.conn after count) }
        ensures refused { TablesRefuses S.Store self.old self.new ⊥ result }
        ensures limit { self.new.conn.step_limit ≡ self.old.conn.step_limit }
        ensures error_only_if { 2 ^ 63 ≤ after → OnErr result (IsTrue self.old.health.is_down) }
    {
        self.health.start_call()?;
        if after >= NUMBERS {
            return Ok(PageWithNodes {
                volumes: Items::new(alloc),
                nodes: Items::new(alloc),
            });
        }
        let answer = read::page_with_nodes(alloc, &mut self.conn, after, count);
        self.note(&answer);
        self.health.finish_call(store_answer(answer))
    }

    fn apply(&mut self, alloc: Global, change: &Change) -> Result<(), StoreFault>
        requires { IsBounded change.now }
        ensures applies { Applies (tables_model S.Store self.old)
            (tables_model S.Store self.new) change.now result }
        ensures stops { OnErr result (IsTrue self.new.health.is_down) }
        ensures refused { TablesRefuses S.Store self.old self.new
            (refuses_change S.Store self.old change.now) result }
        ensures limit { self.new.conn.step_limit ≡ self.old.conn.step_limit }
    {
        if let Err(fault) = self.health.start_call() {
            return Err(fault);
        }
        let answer = make(alloc, &mut self.conn, &mut self.totals, change);
        self.note(&answer);
        self.health.finish_change(store_answer(answer))
    }

    fn apply_owned(&mut self, alloc: Global, change: Change) -> Result<(), StoreFault>
        requires { IsBounded change }
        ensures applies { Applies
            (tables_model S.Store self.old) (tables_model S.Store self.new) change result }
        ensures stops { OnErr result (IsTrue self.new.health.is_down) }
        ensures refused { TablesRefuses S.Store self.old self.new
            (refuses_change S.Store self.old change) result }
        ensures limit { self.new.conn.step_limit ≡ self.old.conn.step_limit }
    {
        self.apply(alloc, &change)
    }
}
