//! The serial run of nested items.
ghost use Rattle.std.specs.Prelude.{◌≡◌, ◌+◌, ◌∷◌, [], ◌↔◌, if◌then◌else◌, Some, None, IfOk, IfSome, IsNone, OnOk, OnErr};
ghost use Rattle.serial_spec.specs.Flat.{flat, IsFirstWrong, nested, HasRun, same_reply, steps_in};
ghost use Rattle.serial_spec.specs.History.{or_else};
ghost use Rattle.serial_spec.specs.Rows.{value_in};
ghost use Rattle.serial_spec.specs.Serial.{map_after, Replies};
ghost use Rattle.serial_spec.specs.declared.target.Asked.TheVariants.{At, Over};

use crate::NoMemory;
use crate::operation::{Op, Reply, act};
use crate::table::{PlainTable, act_sum};
use std::alloc::AllocError;
use txn_names::{Group, Key};

/// What stands in a transaction: an access or a sum with its reply, or all of a committed child as
/// one block.
#[derive(Drop)]
pub enum Item {
    Access { key: Key, op: Op, reply: Reply },
    Sum { group: Group, reply: Reply },
    Block(Vec<Item>),
}

// A run on its way.
#[derive(Drop)]
struct Run {
    table: PlainTable,
    // How many accesses have run.
    count: usize,
    // The first place with another reply than `act` gives there.
    wrong: Option<usize>,
}

impl Run {
    // One access more has run, and this reply was due to it.
    fn note(&mut self, due: &Reply, reply: &Reply) -> Result<(), NoMemory>
        ensures table { OnOk result (self.new.table ≡ self.old.table) }
        ensures count { OnOk result (self.new.count ≡ self.old.count + 1) }
        ensures wrong { OnOk result
            (self.new.wrong ≡ or_else self.old.wrong (if same_reply reply.now due.now then None
            else Some self.old.count)) }
    {
        if due != reply && self.wrong.is_none() {
            self.wrong = Some(self.count);
        }
        self.count = self.count.checked_add(1).ok_or(AllocError)?;
        Ok(())
    }

    fn run_access(&mut self, key: &Key, op: &Op, reply: &Reply) -> Result<(), NoMemory>
        ensures { OnOk result
            (HasRun self.old self.new
            (record { asked = At key.now op.now; reply = reply.now } ∷ [])) }
    {
        let (value, due) = act(self.table.get(key), op);
        self.table.put(key, value)?;
        self.note(&due, reply)
    }

    fn run_sum(&mut self, group: &Group, reply: &Reply) -> Result<(), NoMemory>
        ensures { OnOk result
            (HasRun self.old self.new (record { asked = Over group.now; reply = reply.now } ∷ [])) }
    {
        let due = act_sum(&self.table, group);
        self.note(&due, reply)?;
        Ok(())
    }

    #[cycle(run)]
    fn run_one(&mut self, item: &Item) -> Result<(), NoMemory>
        ensures { OnOk result (HasRun self.old self.new (steps_in item.now)) }
    {
        match item {
            Item::Access { key, op, reply } => self.run_access(key, op, reply),
            Item::Sum { group, reply } => self.run_sum(group, reply),
            Item::Block(items) => self.run_all(items),
        }
    }

    #[cycle(run)]
    fn run_all(&mut self, items: &[Item]) -> Result<(), NoMemory>
        ensures { OnOk result (HasRun self.old self.new (flat items.now)) }
    {
        for item in items {
            self.run_one(item)?;
        }
        Ok(())
    }
}

/// Runs nested items in their order over one table, blocks whole in their place. Each operation is
/// applied, whatever its reply. The answer is the first place, counted over the accesses from 0,
/// with another reply than `act` gives there, or None where there is none. The only error is that
/// memory runs out; it leaves the table as before; more accesses than a usize counts are taken for
/// it.
pub fn run_items(table: &mut PlainTable, items: &[Item]) -> Result<Option<usize>, NoMemory>
    ensures table { OnOk result (value_in table.new.rows ≡
        map_after (value_in table.old.rows) (nested items.now)) }
    ensures none { IfOk result (λ wrong.
        IsNone wrong ↔ Replies (value_in table.old.rows) (nested items.now)) }
    ensures first { IfOk result (λ wrong.
        IfSome wrong (λ i. IsFirstWrong (value_in table.old.rows) (flat items.now) i)) }
    ensures err { OnErr result (table.new ≡ table.old) }
{
    let mut run = Run {
        table: table.copy()?,
        count: 0,
        wrong: None,
    };
    run.run_all(items)?;
    *table = run.table;
    Ok(run.wrong)
}
