//! Lines that wait for a condition, and lines that are given up.
ghost use Rattle.std.specs.Prelude.{◌≡◌, ◌<◌, ◌↔◌, ◌∷◌, ℕ, length, IfOk, IsOk, OnErr, OnOk, IsFalse, IsTrue};
ghost use Rattle.std.specs.Int.{bit_at};
ghost use Rattle.serial_spec.specs.declared.event.Event.TheVariants.{After};
ghost use Rattle.serial_spec.specs.declared.entry.Answer.TheVariants.{Stuck};
ghost use Rattle.serial_spec.specs.Allowed.{has_come, known, most_keys};
ghost use Rattle.event_lists.specs.Views.{asked};
ghost use Rattle.manager_core.specs.Lines.{CanGiveUp, IsFree, IsWaitOf};
ghost use Rattle.manager_core.specs.Parking.{Awaited, IsKeptOut, IsParked, IsSessionParked, NobodyWaits};
ghost use Rattle.manager_core.specs.State.{entry};

use crate::manager::Manager;
use crate::outcome::Outcome;
use durable_top::TopStore;
use event_lists::{Act, EventView};
use serial_spec::{Asked, By, MOST_KEYS, NoMemory, Reply, When};
use txn_names::Name;

impl<S: TopStore> Manager<S> {
    ghost use Rattle.manager_core.specs.Sound.{IsSound};

    /// Answers an `after` line once its condition holds: that the transaction has begun; or that it
    /// has committed, or has begun and has an aborted ancestor, itself included. Until then the
    /// line waits, without an entry and without memory, and nothing changes.
    pub fn after(&mut self, by: By, name: &Name, when: When) -> Result<Outcome, NoMemory>
        requires free { IsFree self.old.history by (After name.now when) }
        ensures ok { IfOk result (λ outcome.
            Awaited self.old self.new by (After name.now when) outcome) }
        ensures err { OnErr result (self.new ≡ self.old) }
        ensures waits { IsFalse (has_come self.old.history name.now when) → IsOk result }
        ensures sound { OnOk result (IsSound S.TopStore self.new) }
    {
        if !self.tables.has_come(name, when) {
            return Ok(Outcome::Waits);
        }
        self.log.reserve(1)?;
        let outcome = Outcome::Done(Reply::Ok);
        self.log.add(by, name, &Act::After(when), &outcome);
        Ok(outcome)
    }

    /// Whether the line may be given up and no call answers it: its access waits by it and is kept
    /// out still, or it is free and its condition does not hold. It takes no memory.
    pub fn held_up(&self, by: By, event: &EventView<'_>) -> bool
        ensures { IsTrue result ↔ IsKeptOut self.now.rows self.now.history by (asked event.now) }
    {
        let name = event.name;
        match event.act {
            Act::Access(key, op) => {
                let asked = Asked::At(*key, *op);
                self.tables.is_kept_out(&self.log, by, name, &asked)
            }
            Act::Sum(group) => {
                let asked = Asked::Over(*group);
                self.tables.is_kept_out(&self.log, by, name, &asked)
            }
            Act::After(when) => self.free(by, event) && !self.tables.has_come(name, *when),
            _ => false,
        }
    }

    /// Whether nobody waits: it is so exactly where no access waits by any line. It takes no
    /// memory.
    pub fn nobody_waits(&self) -> bool
        ensures { IsTrue result ↔ NobodyWaits self.now.history }
    {
        self.tables.nobody_waits(&self.log)
    }

    /// Whether fewer keys are known than may be, those of the opening rows and of answered accesses,
    /// so that no access is refused for their number. It takes no memory.
    pub fn knows_few(&self) -> bool
        ensures { IsTrue result ↔ length (known self.now.rows self.now.history) < most_keys }
    {
        self.log.known() < MOST_KEYS
    }

    /// Whether it is seen at once that the line is held up: an access waits by it that was seen
    /// kept out, and who kept it out has not ended since, so that this lock has only risen (Moss
    /// 1981). Else `held_up` tells. It takes no memory.
    pub fn is_parked(&self, by: By) -> bool
        ensures { IsTrue result → IsParked self.now.rows self.now.history by }
    {
        self.tables.is_parked(&self.log, by)
    }

    /// The sessions of which it is seen at once that an access waits and is kept out still, as
    /// `is_parked` tells it of a line: one bit for each of the first 64. Of the others nothing is
    /// told. It takes no memory.
    #[inline(always)]
    pub fn parked_sessions(&self) -> u64
        ensures { (s : ℕ) → bit_at result s ≡ 1
            → IsSessionParked self.now.rows self.now.history s }
    {
        self.tables.parked_sessions(&self.log)
    }

    /// As `is_parked`, and where who kept it out has ended since, the locks are asked once more. An
    /// access that is kept out is remembered with one who keeps it out, until that one ends, so that
    /// to ask again costs one look. It takes no memory.
    pub fn stays_parked(&mut self, by: By) -> bool
        ensures parked { IsTrue result → IsParked self.old.rows self.old.history by }
        ensures same { self.new ≡ self.old }
    {
        self.tables.stays_parked(&self.log, by)
    }

    // Gives up an access that waits by this line.
    fn cancel_access(&mut self, by: By, event: &EventView<'_>) -> Result<(), NoMemory>
        requires waits { IsWaitOf self.old.history by (asked event.now) }
        ensures ok { OnOk result (self.new ≡
            record self.old { history = entry by (asked event.now) Stuck ∷ self.old.history }) }
        ensures err { OnErr result (self.new ≡ self.old) }
        ensures sound { OnOk result (IsSound S.TopStore self.new) }
    {
        self.log.reserve(1)?;
        self.tables.end_wait(by, event.name);
        self.log.add_stuck(by, event);
        Ok(())
    }

    // Gives up an `after` line whose condition does not hold.
    fn cancel_after(&mut self, by: By, name: &Name, when: When) -> Result<(), NoMemory>
        requires may { CanGiveUp self.old.history by (After name.now when) }
        ensures ok { OnOk result
            (self.new ≡
            record self.old { history = entry by (After name.now when) Stuck ∷ self.old.history }) }
        ensures err { OnErr result (self.new ≡ self.old) }
        ensures sound { OnOk result (IsSound S.TopStore self.new) }
    {
        self.log.reserve(1)?;
        let act = Act::After(when);
        self.log.add_stuck(by, &EventView { name, act: &act });
        Ok(())
    }

    /// Gives a line up, an access that waits by it or an `after` line whose condition does not
    /// hold: it is answered `Stuck`. Its transaction waits no more.
    pub fn cancel(&mut self, by: By, event: &EventView<'_>) -> Result<(), NoMemory>
        requires may { CanGiveUp self.old.history by (asked event.now) }
        ensures ok { OnOk result (self.new ≡
            record self.old { history = entry by (asked event.now) Stuck ∷ self.old.history }) }
        ensures err { OnErr result (self.new ≡ self.old) }
        ensures sound { OnOk result (IsSound S.TopStore self.new) }
    {
        match event.act {
            Act::After(when) => self.cancel_after(by, event.name, *when),
            _ => self.cancel_access(by, event),
        }
    }
}
