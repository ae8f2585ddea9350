//! What the opening does inside its transaction.
ghost use Rattle.std.specs.Prelude.{◌≡◌, ◌⊎◌, [], Err, OnOk, IfOk, IfErr, IsTrue};
ghost use Rattle.sqlite.specs.Held.{state};
ghost use Rattle.serial_spec.specs.Rows.{IsRising, value_in};
ghost use Rattle.durable_top.specs.Numbered.{AreNumbered, entries_in};
ghost use Rattle.durable_top.specs.Store.{plain};
ghost use Rattle.sql_store.specs.Asked.{MakesTables, ReadsOld, ReadsNew, ReadsBoth, Finds, PutsEach, MovesOver, MovesRows, SettlesInside, OpensInside, QueryFails, DoesUnless};
ghost use Rattle.sql_store.specs.Faults.{fault_of};
ghost use Rattle.sql_store.specs.Ids.{IsDecided, IsDecidedBy};
ghost use Rattle.sql_store.specs.Inside.{Steps, AreMade, AreRead, IsOpened, Settles, AreSorted, AreNumbersOf, FoundOut, AreSettled, IsLaidOver};
ghost use Rattle.sql_store.specs.Load.{ids_text, ids_query, old_ids_text, old_ids_query};
ghost use Rattle.sql_store.specs.Refusals.{CannotMake, CannotReadOld, CannotReadNew, CannotReadBoth, CannotAsk, CannotFind, PutRefused, CannotMoveOver, CannotMove, CannotSettle, CannotOpenInside};
ghost use Rattle.sql_store.specs.Results.{both_schema};
ghost use Rattle.sql_store.specs.Table.{map_of, moved, AreApart, IsReady, IsMoved, AreBothApart, KeepsOldTree};
ghost use Rattle.sql_store.specs.Calls.{Continues, ErrorHasCause, FaultHasCause, IfClean, IfInside, IsInside, OnlyReads, ChangesApart, ChangesDatabase, ChangesOf, ChangesReady, ChangesWith, ErrorHasReason, ErrorInsideHasCause, FailsBy, Reads, RefusesFor, StaysInside, SucceedsBy, SucceedsWith, TellsOfBoth};

use crate::faults::fault_of;
use crate::reading::{are_apart, sorted, sorted_old};
use crate::statements::{
    create, create_old, empty, put, select_ids, select_inside, select_old, select_old_ids,
};
use durable_top::{NumberTable, Row, StoreFault};
use sqlite::{Alter, Error, Transaction};
use std::alloc::Global;

#[tactic(auto, using(crate::proofs::Steps::steps_then, crate::proofs::Steps::clean_before))]
/// Makes the tables where they are missing.
pub(crate) fn make_tables<S: Alter>(tx: &mut Transaction<'_, S>) -> Result<(), Error>
    ensures same_reference { tx.new.conn.ghost_name ≡ tx.old.conn.ghost_name }
    ensures on { OnOk result (Continues S.Store tx.old.conn.now tx.new.conn.now) }
    ensures made { ChangesDatabase S.Store AreMade tx.old.conn.now tx.new.conn.now result }
    ensures answers { DoesUnless S.Store (MakesTables S.Store) (CannotMake S.Store)
        tx.old.conn.now tx.new.conn.now result }
{
    create_old(tx)?;
    create(tx)
}

// The rows of the old table, each under the number 0.
fn read_old<S: Alter>(tx: &mut Transaction<'_, S>, alloc: Global) -> Result<Vec<Row>, StoreFault>
    ensures same_reference { tx.new.conn.ghost_name ≡ tx.old.conn.ghost_name }
    ensures steps { Steps (state S.Store tx.old.conn.now) (state S.Store tx.new.conn.now) }
    ensures on { OnOk result (Continues S.Store tx.old.conn.now tx.new.conn.now) }
    ensures rising { IfOk result (λ rows. IsRising (plain rows.items)) }
    ensures numbers { IfOk result (λ rows. AreNumbered rows.items) }
    ensures rows { TellsOfBoth S.Store tx.old.conn.now tx.new.conn.now result
        (λ db rows. entries_in rows.items ≡ moved (db.trees 0)) }
    ensures none { TellsOfBoth S.Store tx.old.conn.now tx.new.conn.now result
        (λ db rows. rows.items ≡ [] → db.trees 0 ≡ []) }
    ensures same { OnlyReads S.Store tx.old.conn.now tx.new.conn.now result }
    ensures cause { FaultHasCause S.Store tx.old.conn.now tx.new.conn.now result }
    ensures refused { RefusesFor S.Store (CannotReadOld S.Store)
        tx.old.conn.now tx.new.conn.now result }
    ensures asked { IfClean S.Store tx.new.conn.now
        (IfOk result (λ rows. ReadsOld S.Store tx.old.conn.now tx.new.conn.now rows.items)) }
{
    match select_old(tx) {
        Ok(rows) => sorted_old(alloc, rows.as_slice()),
        Err(error) => Err(fault_of(error)),
    }
}

// The rows of the new table.
fn read_new<S: Alter>(tx: &mut Transaction<'_, S>, alloc: Global) -> Result<Vec<Row>, StoreFault>
    ensures same_reference { tx.new.conn.ghost_name ≡ tx.old.conn.ghost_name }
    ensures steps { Steps (state S.Store tx.old.conn.now) (state S.Store tx.new.conn.now) }
    ensures on { OnOk result (Continues S.Store tx.old.conn.now tx.new.conn.now) }
    ensures rising { IfOk result (λ rows. IsRising (plain rows.items)) }
    ensures numbers { IfOk result (λ rows. AreNumbered rows.items) }
    ensures rows { TellsOfBoth S.Store tx.old.conn.now tx.new.conn.now result
        (λ db rows. entries_in rows.items ≡ map_of (db.trees 2)) }
    ensures none { TellsOfBoth S.Store tx.old.conn.now tx.new.conn.now result
        (λ db rows. rows.items ≡ [] → db.trees 2 ≡ []) }
    ensures same { OnlyReads S.Store tx.old.conn.now tx.new.conn.now result }
    ensures cause { FaultHasCause S.Store tx.old.conn.now tx.new.conn.now result }
    ensures refused { RefusesFor S.Store (CannotReadNew S.Store)
        tx.old.conn.now tx.new.conn.now result }
    ensures asked { IfClean S.Store tx.new.conn.now
        (IfOk result (λ rows. ReadsNew S.Store tx.old.conn.now tx.new.conn.now rows.items)) }
{
    match select_inside(tx) {
        Ok(rows) => sorted(alloc, rows.as_slice()),
        Err(error) => Err(fault_of(error)),
    }
}

// Whether no rowid comes twice in the old table.
fn is_old_apart<S: Alter>(tx: &mut Transaction<'_, S>) -> Result<bool, Error>
    ensures same_reference { tx.new.conn.ghost_name ≡ tx.old.conn.ghost_name }
    ensures steps { Steps (state S.Store tx.old.conn.now) (state S.Store tx.new.conn.now) }
    ensures on { OnOk result (Continues S.Store tx.old.conn.now tx.new.conn.now) }
    ensures apart { TellsOfBoth S.Store tx.old.conn.now tx.new.conn.now result
        (λ db apart. IsTrue apart → AreApart (db.trees 0)) }
    ensures decided { TellsOfBoth S.Store tx.old.conn.now tx.new.conn.now result
        (IsDecidedBy old_ids_query) }
    ensures same { OnlyReads S.Store tx.old.conn.now tx.new.conn.now result }
    ensures cause { ErrorHasCause S.Store tx.old.conn.now tx.new.conn.now result }
    ensures refused { FailsBy S.Store (QueryFails S.Store old_ids_text)
        tx.old.conn.now tx.new.conn.now result }
{
    let ids = select_old_ids(tx)?;
    Ok(are_apart(ids.as_slice()))
}

// Whether no rowid comes twice in the new table.
fn is_new_apart<S: Alter>(tx: &mut Transaction<'_, S>) -> Result<bool, Error>
    ensures same_reference { tx.new.conn.ghost_name ≡ tx.old.conn.ghost_name }
    ensures steps { Steps (state S.Store tx.old.conn.now) (state S.Store tx.new.conn.now) }
    ensures on { OnOk result (Continues S.Store tx.old.conn.now tx.new.conn.now) }
    ensures apart { TellsOfBoth S.Store tx.old.conn.now tx.new.conn.now result
        (λ db apart. IsTrue apart → AreApart (db.trees 2)) }
    ensures decided { TellsOfBoth S.Store tx.old.conn.now tx.new.conn.now result
        (IsDecidedBy ids_query) }
    ensures same { OnlyReads S.Store tx.old.conn.now tx.new.conn.now result }
    ensures cause { ErrorHasCause S.Store tx.old.conn.now tx.new.conn.now result }
    ensures refused { FailsBy S.Store (QueryFails S.Store ids_text)
        tx.old.conn.now tx.new.conn.now result }
{
    let ids = select_ids(tx)?;
    Ok(are_apart(ids.as_slice()))
}

// Puts the rows into the new table, the last of them first.
fn move_rows<S: Alter>(tx: &mut Transaction<'_, S>, rows: &[Row]) -> Result<(), Error>
    ensures same_reference { tx.new.conn.ghost_name ≡ tx.old.conn.ghost_name }
    ensures on { IfInside S.Store tx.old.conn.now tx.new.conn.now
        (OnOk result (IsInside S.Store tx.new.conn.now)) }
    ensures ready { ChangesReady S.Store (λ _ new. IsReady new)
        tx.old.conn.now tx.new.conn.now result }
    ensures table { ChangesReady S.Store (IsLaidOver rows.now)
        tx.old.conn.now tx.new.conn.now result }
    ensures others { ChangesReady S.Store KeepsOldTree tx.old.conn.now tx.new.conn.now result }
    ensures answers { DoesUnless S.Store (PutsEach S.Store rows.now)
        (PutRefused S.Store rows.now) tx.old.conn.now tx.new.conn.now result }
{
    let mut left = rows.len();
    while left > 0 {
        left -= 1;
        put(tx, &rows[left])?;
    }
    Ok(())
}

// Moves the rows of the old table into the new one.
#[tactic(auto, using(crate::proofs::Steps::steps_then, crate::proofs::Steps::clean_before))]
fn move_over<S: Alter>(tx: &mut Transaction<'_, S>, rows: &[Row]) -> Result<(), Error>
    ensures same_reference { tx.new.conn.ghost_name ≡ tx.old.conn.ghost_name }
    ensures on { IfInside S.Store tx.old.conn.now tx.new.conn.now
        (OnOk result (IsInside S.Store tx.new.conn.now)) }
    ensures moved { ChangesApart S.Store (λ _ new. IsMoved new)
        tx.old.conn.now tx.new.conn.now result }
    ensures table { ChangesReady S.Store (IsLaidOver rows.now)
        tx.old.conn.now tx.new.conn.now result }
    ensures answers { DoesUnless S.Store (MovesOver S.Store rows.now)
        (CannotMoveOver S.Store rows.now) tx.old.conn.now tx.new.conn.now result }
{
    move_rows(tx, rows)?;
    empty(tx)
}

// Moves the rows of the old table, if there are some. Where both tables have rows it refuses.
pub(crate) fn settle_rows<S: Alter>(
    tx: &mut Transaction<'_, S>,
    old: &[Row],
    new: &[Row],
) -> Result<(), StoreFault>
    ensures same_reference { tx.new.conn.ghost_name ≡ tx.old.conn.ghost_name }
    ensures steps { Steps (state S.Store tx.old.conn.now) (state S.Store tx.new.conn.now) }
    ensures on { IfInside S.Store tx.old.conn.now tx.new.conn.now
        (OnOk result (IsInside S.Store tx.new.conn.now)) }
    ensures settled { ChangesApart S.Store (Settles old.now new.now)
        tx.old.conn.now tx.new.conn.now result }
    ensures cause { FaultHasCause S.Store tx.old.conn.now tx.new.conn.now result }
    ensures refused { RefusesFor S.Store (CannotMove S.Store old.now new.now)
        tx.old.conn.now tx.new.conn.now result }
    ensures asked { SucceedsBy S.Store (MovesRows S.Store old.now new.now)
        tx.old.conn.now tx.new.conn.now result }
{
    if old.is_empty() {
        return Ok(());
    }
    if !new.is_empty() {
        return Err(StoreFault::Refused);
    }
    match move_over(tx, old) {
        Ok(()) => Ok(()),
        Err(error) => Err(fault_of(error)),
    }
}

// Whether no rowid comes twice in one of the tables.
#[tactic(auto, using(crate::proofs::Steps::steps_then, crate::proofs::Steps::clean_before))]
fn are_both_apart<S: Alter>(tx: &mut Transaction<'_, S>) -> Result<bool, Error>
    ensures same_reference { tx.new.conn.ghost_name ≡ tx.old.conn.ghost_name }
    ensures steps { Steps (state S.Store tx.old.conn.now) (state S.Store tx.new.conn.now) }
    ensures on { OnOk result (Continues S.Store tx.old.conn.now tx.new.conn.now) }
    ensures apart { TellsOfBoth S.Store tx.old.conn.now tx.new.conn.now result
        (λ db apart. IsTrue apart → AreBothApart db) }
    ensures decided { TellsOfBoth S.Store tx.old.conn.now tx.new.conn.now result IsDecided }
    ensures same { OnlyReads S.Store tx.old.conn.now tx.new.conn.now result }
    ensures cause { ErrorInsideHasCause S.Store tx.old.conn.now tx.new.conn.now result }
    ensures refused { FailsBy S.Store (ErrorHasReason (CannotAsk S.Store))
        tx.old.conn.now tx.new.conn.now result }
{
    let is_old_apart = is_old_apart(tx)?;
    let is_new_apart = is_new_apart(tx)?;
    Ok(is_old_apart && is_new_apart)
}

/// The rows of both tables, and whether no rowid comes twice in one of them.
#[derive(Drop)]
struct Found {
    old: Vec<Row>,
    new: Vec<Row>,
    is_apart: bool,
}

/// What the opening found out: whether no rowid comes twice, and the numbers of the table.
#[derive(Drop)]
pub(crate) struct Opened {
    pub(crate) is_apart: bool,
    pub(crate) numbers: NumberTable,
}

// The rows of both tables.
#[tactic(auto, using(crate::proofs::Steps::steps_then, crate::proofs::Steps::clean_before))]
fn read_both<S: Alter>(
    tx: &mut Transaction<'_, S>,
    alloc: Global,
) -> Result<(Vec<Row>, Vec<Row>), StoreFault>
    ensures same_reference { tx.new.conn.ghost_name ≡ tx.old.conn.ghost_name }
    ensures steps { Steps (state S.Store tx.old.conn.now) (state S.Store tx.new.conn.now) }
    ensures on { OnOk result (Continues S.Store tx.old.conn.now tx.new.conn.now) }
    ensures old { IfOk result (λ read. AreSorted read.0.items) }
    ensures new { IfOk result (λ read. AreSorted read.1.items) }
    ensures read { TellsOfBoth S.Store tx.old.conn.now tx.new.conn.now result
        (λ db read. AreRead read.0.items read.1.items db) }
    ensures same { OnlyReads S.Store tx.old.conn.now tx.new.conn.now result }
    ensures cause { FaultHasCause S.Store tx.old.conn.now tx.new.conn.now result }
    ensures refused { RefusesFor S.Store (CannotReadBoth S.Store)
        tx.old.conn.now tx.new.conn.now result }
    ensures asked { Reads S.Store tx.old.conn.now tx.new.conn.now result
        (λ old new read. ReadsBoth S.Store old new read.0.items read.1.items) }
{
    let old = read_old(tx, alloc)?;
    let new = read_new(tx, alloc)?;
    Ok((old, new))
}

// The rows of both tables, and whether their rowids are apart.
#[tactic(auto, using(crate::proofs::Steps::steps_then, crate::proofs::Steps::clean_before))]
fn find<S: Alter>(tx: &mut Transaction<'_, S>, alloc: Global) -> Result<Found, StoreFault>
    ensures same_reference { tx.new.conn.ghost_name ≡ tx.old.conn.ghost_name }
    ensures steps { Steps (state S.Store tx.old.conn.now) (state S.Store tx.new.conn.now) }
    ensures on { OnOk result (Continues S.Store tx.old.conn.now tx.new.conn.now) }
    ensures old { IfOk result (λ found. AreSorted found.old.items) }
    ensures new { IfOk result (λ found. AreSorted found.new.items) }
    ensures read { TellsOfBoth S.Store tx.old.conn.now tx.new.conn.now result
        (λ db found. AreRead found.old.items found.new.items db) }
    ensures apart { TellsOfBoth S.Store tx.old.conn.now tx.new.conn.now result
        (λ db found. IsTrue found.is_apart → AreBothApart db) }
    ensures decided { TellsOfBoth S.Store tx.old.conn.now tx.new.conn.now result
        (λ db found. IsDecided db found.is_apart) }
    ensures same { OnlyReads S.Store tx.old.conn.now tx.new.conn.now result }
    ensures cause { FaultHasCause S.Store tx.old.conn.now tx.new.conn.now result }
    ensures refused { RefusesFor S.Store (CannotFind S.Store)
        tx.old.conn.now tx.new.conn.now result }
    ensures asked { Reads S.Store tx.old.conn.now tx.new.conn.now result
        (λ old new read. Finds S.Store old new read.old.items read.new.items) }
{
    let (old, new) = read_both(tx, alloc)?;
    match are_both_apart(tx) {
        Ok(is_apart) => Ok(Found { old, new, is_apart }),
        Err(error) => Err(fault_of(error)),
    }
}

// The numbers of the table that is made of these rows.
fn table_numbers(alloc: Global, old: &[Row], new: &[Row]) -> Result<NumberTable, StoreFault>
    requires old { AreSorted old.now }
    requires new { AreSorted new.now }
    ensures numbered { IfOk result (λ numbers.
        AreNumbersOf old.now new.now (value_in numbers.rows)) }
    ensures memory { IfErr result (λ fault. fault ≡ StoreFault.Memory) }
{
    match NumberTable::of_rows(alloc, if old.is_empty() { new } else { old }) {
        Ok(numbers) => Ok(numbers),
        Err(_) => Err(StoreFault::Memory),
    }
}

// Moves the rows of the old table where there are some, and tells the numbers.
#[tactic(auto, using(crate::proofs::Steps::steps_then, crate::proofs::Steps::clean_before))]
fn settle_found<S: Alter>(
    tx: &mut Transaction<'_, S>,
    alloc: Global,
    found: &Found,
) -> Result<Opened, StoreFault>
    requires old { AreSorted found.now.old.items }
    requires new { AreSorted found.now.new.items }
    ensures same_reference { tx.new.conn.ghost_name ≡ tx.old.conn.ghost_name }
    ensures steps { Steps (state S.Store tx.old.conn.now) (state S.Store tx.new.conn.now) }
    ensures on { IfInside S.Store tx.old.conn.now tx.new.conn.now
        (OnOk result (IsInside S.Store tx.new.conn.now)) }
    ensures settled { ChangesApart S.Store (Settles found.now.old.items found.now.new.items)
        tx.old.conn.now tx.new.conn.now result }
    ensures apart { IfOk result (λ opened. opened.is_apart ≡ found.now.is_apart) }
    ensures numbered { IfOk result (λ opened.
        AreNumbersOf found.now.old.items found.now.new.items (value_in opened.numbers.rows)) }
    ensures cause { FaultHasCause S.Store tx.old.conn.now tx.new.conn.now result }
    ensures refused { RefusesFor S.Store
        (CannotMove S.Store found.now.old.items found.now.new.items)
        tx.old.conn.now tx.new.conn.now result }
    ensures asked { SucceedsBy S.Store (MovesRows S.Store found.now.old.items found.now.new.items)
        tx.old.conn.now tx.new.conn.now result }
{
    let numbers = table_numbers(alloc, &found.old, &found.new)?;
    settle_rows(tx, &found.old, &found.new)?;
    Ok(Opened {
        is_apart: found.is_apart,
        numbers,
    })
}

// Reads both tables, and moves the rows of the old one where there are some.
#[tactic(auto, using(crate::proofs::Steps::steps_then, crate::proofs::Steps::clean_before))]
fn find_and_settle<S: Alter>(
    tx: &mut Transaction<'_, S>,
    alloc: Global,
) -> Result<Opened, StoreFault>
    ensures same_reference { tx.new.conn.ghost_name ≡ tx.old.conn.ghost_name }
    ensures steps { Steps (state S.Store tx.old.conn.now) (state S.Store tx.new.conn.now) }
    ensures on { IfInside S.Store tx.old.conn.now tx.new.conn.now
        (OnOk result (IsInside S.Store tx.new.conn.now)) }
    ensures settled { ChangesWith S.Store tx.old.conn.now tx.new.conn.now result
        (λ it. AreSettled it.is_apart (value_in it.numbers.rows)) }
    ensures stays { ChangesOf S.Store both_schema (λ old new. old.trees 0 ≡ [] → new ≡ old)
        tx.old.conn.now tx.new.conn.now result }
    ensures cause { FaultHasCause S.Store tx.old.conn.now tx.new.conn.now result }
    ensures refused { RefusesFor S.Store (CannotSettle S.Store)
        tx.old.conn.now tx.new.conn.now result }
    ensures asked { SucceedsWith S.Store tx.old.conn.now tx.new.conn.now result
        (λ it. SettlesInside S.Store (value_in it.numbers.rows)) }
{
    let found = find(tx, alloc)?;
    settle_found(tx, alloc, &found)
}

/// Makes the tables where they are missing, and moves the rows of the old one where there are some.
#[tactic(auto, using(crate::proofs::Steps::steps_then, crate::proofs::Steps::clean_before))]
pub(crate) fn open_inside<S: Alter>(
    tx: &mut Transaction<'_, S>,
    alloc: Global,
) -> Result<Opened, StoreFault>
    ensures same_reference { tx.new.conn.ghost_name ≡ tx.old.conn.ghost_name }
    ensures steps { Steps (state S.Store tx.old.conn.now) (state S.Store tx.new.conn.now) }
    ensures on { SucceedsBy S.Store (StaysInside S.Store) tx.old.conn.now tx.new.conn.now result }
    ensures opened { ChangesDatabase S.Store IsOpened tx.old.conn.now tx.new.conn.now result }
    ensures found { ChangesWith S.Store tx.old.conn.now tx.new.conn.now result
        (λ it. FoundOut it.is_apart (value_in it.numbers.rows)) }
    ensures cause { FaultHasCause S.Store tx.old.conn.now tx.new.conn.now result }
    ensures refused { RefusesFor S.Store (CannotOpenInside S.Store)
        tx.old.conn.now tx.new.conn.now result }
    ensures asked { SucceedsWith S.Store tx.old.conn.now tx.new.conn.now result
        (λ it. OpensInside S.Store (value_in it.numbers.rows)) }
{
    match make_tables(tx) {
        Ok(()) => find_and_settle(tx, alloc),
        Err(error) => Err(fault_of(error)),
    }
}
