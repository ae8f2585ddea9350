//! Locks of keys and of groups.
ghost use Rattle.std.specs.Prelude.{◌≡◌, ◌↔◌, not, nat_eq, false, IsFalse, IsOk, IsTrue, IfOk, IfSome, OnErr, OnOk, List, ℕ};
ghost use Rattle.std.specs.List.{IsDistinct, list_any};
ghost use Rattle.std.specs.List.Sorted.{IsStrictlyIncreasing};
ghost use Rattle.txn_names.specs.Path.{label_eq};
ghost use Rattle.serial_spec.specs.declared.operation.Kind.TheVariants.{Read};
ghost use Rattle.serial_spec.specs.declared.target.Target.{Target};
ghost use Rattle.serial_spec.specs.declared.target.Target.TheVariants as target;
ghost use Rattle.serial_spec.specs.Locks.{mode_of};
ghost use Rattle.serial_spec.specs.declared.mode.Mode.TheVariants as mode;
ghost use Rattle.lock_table.specs.Inherited.{free};
ghost use Rattle.lock_table.specs.Blocking.{is_blocked_in, is_under};
ghost use Rattle.lock_table.specs.Targeted.{AddsMarkPlaces, AddsPlaces, AreBlockers, AreListed, HasMarkPlaces, HasModes, HasPlaces, IsBlockerAt, MayAt, MayGoUpTo, MayHold, both_of, handed_up_at, has_mark_place, has_place, held_at, is_listed, lists_of, modes_at, modes_left, places_left, with_child_marks, with_childs_at, with_marks, with_place_at};

use crate::groups::{add_summers, make_marks, mark, sum_blocks, sums_let};
use crate::locks::Locks;
use serial_spec::{Kind, Mode, NoMemory, Target};
use std::alloc::Global;
use std::marker::Model;
use txn_names::{Group, Key};
use txn_tree::{Tree, TxnNo};

/// How far each transaction, by its number, locks each key and each group.
#[derive(Drop)]
pub struct TargetLocks {
    pub(crate) keys: Locks,
    // By the bytes of the group.
    pub(crate) sums: Locks,
    // Who locks a key of a group to write, by the bytes of the group.
    pub(crate) writers: Locks,
}

impl Model for TargetLocks {
    ghost use Rattle.lock_table.specs.Targeted.{AreSums, AreWriters, Targeted};

    ghost Value = { Targeted };

    ghost view = { λ l. record { keys = l.keys; sums = l.sums; writers = l.writers } };

    ghost invariant = { λ l. AreWriters l.keys l.writers × AreSums l.sums };
}

impl TargetLocks {
    /// No locks. It takes no memory yet.
    pub fn new(alloc: Global) -> Self
        ensures modes { HasModes result (λ _ _. free) }
        ensures places { HasPlaces result (λ _ _. false) }
        ensures marks { HasMarkPlaces result (λ _ _. false) }
    {
        TargetLocks {
            keys: Locks::new(alloc),
            sums: Locks::new(alloc),
            writers: Locks::new(alloc),
        }
    }

    /// The modes in which the transaction locks the key: held, and retained.
    pub fn modes_of(&self, txn: TxnNo, key: &Key) -> (Mode, Mode)
        ensures { result ≡ both_of (modes_at self.now txn (target.Key key.now)) }
    {
        self.keys.modes_of(txn, key)
    }

    /// As `modes_of`, of a key that mostly is the transaction's key at this index in `keys`: that
    /// is found without a look-up.
    pub fn modes_listed(&self, txn: TxnNo, index: usize, key: &Key) -> (Mode, Mode)
        ensures { result ≡ both_of (modes_at self.now txn (target.Key key.now)) }
    {
        self.keys.modes_listed(txn, index, key)
    }

    /// The keys at which the transaction has a place, each once. It locks no other key; groups are
    /// not among them.
    pub fn keys(&self, txn: TxnNo) -> &[Key]
        ensures each { (q : List ℕ) →
            has_place self.now txn (target.Key q) ≡ list_any (label_eq q) result.now }
        ensures once { IsDistinct label_eq result.now }
        ensures elsewhere { (q : List ℕ) →
            IsFalse (has_place self.now txn (target.Key q))
            → modes_at self.now txn (target.Key q) ≡ free }
    {
        self.keys.keys(txn)
    }

    /// The modes in which the transaction locks the group: held, and retained.
    pub fn group_modes_of(&self, txn: TxnNo, group: &Group) -> (Mode, Mode)
        ensures { result ≡ both_of (modes_at self.now txn (target.Group group.now)) }
    {
        self.sums.modes_of(txn, &group.as_key())
    }

    /// Whether nobody keeps the transaction from an access of this kind to the key: by a lock on
    /// the key, or, from a write, by one on a group of the key. It takes no memory.
    pub fn may(&self, tree: &Tree, txn: TxnNo, key: &Key, kind: Kind) -> bool
        ensures { IsTrue result ↔ MayAt tree.now self.now txn (target.Key key.now) kind }
    {
        let is_let = self.keys.may(tree, txn, key, kind);
        self.may_by(is_let, tree, txn, key, kind)
    }

    // The same, where this says whether nobody keeps the transaction out by a lock on the key.
    #[inline(always)]
    fn may_by(&self, is_let: bool, tree: &Tree, txn: TxnNo, key: &Key, kind: Kind) -> bool
        requires { is_let ≡ not (is_blocked_in tree.now self.now.keys txn key.now kind) }
        ensures { IsTrue result ↔ MayAt tree.now self.now txn (target.Key key.now) kind }
    {
        match kind {
            Kind::Read => is_let,
            Kind::Write => is_let && sums_let(&self.sums, tree, txn, key),
        }
    }

    /// As `may`. The key is looked up once and remembered, so that `reserve` and `hold` find its
    /// lock without another look-up. No lock and no place changes, and it takes no memory.
    #[inline(always)]
    pub fn may_remembering(&mut self, tree: &Tree, txn: TxnNo, key: &Key, kind: Kind) -> bool
        ensures may { IsTrue result ↔ MayAt tree.now self.old txn (target.Key key.now) kind }
        ensures same { self.new ≡ self.old }
    {
        self.keys.remember(key);
        let is_let = self.keys.may_remembered(tree, txn, key, kind);
        self.may_by(is_let, tree, txn, key, kind)
    }

    /// Whether nobody keeps the transaction from a sum over the group: by a lock to write on a key
    /// of it. It takes no memory.
    pub fn may_group(&self, tree: &Tree, txn: TxnNo, group: &Group) -> bool
        ensures { IsTrue result ↔ MayAt tree.now self.now txn (target.Group group.now) Read }
    {
        self.writers.may(tree, txn, &group.as_key(), Kind::Read)
    }

    /// Whether the holder keeps the transaction from an access of this kind: it has begun, is
    /// neither the transaction nor an ancestor of it, and its lock on the key conflicts, or, with a
    /// write, its lock on a group of the key. It takes no memory.
    pub fn blocks(&self, tree: &Tree, holder: TxnNo, txn: TxnNo, key: &Key, kind: Kind) -> bool
        ensures { IsTrue result
            ↔ IsBlockerAt tree.now self.now txn (target.Key key.now) kind holder }
    {
        match kind {
            Kind::Read => self.keys.blocks(tree, holder, txn, key, Kind::Read),
            Kind::Write => {
                self.keys.blocks(tree, holder, txn, key, Kind::Write)
                    || sum_blocks(&self.sums, tree, holder, txn, key)
            }
        }
    }

    /// Whether the holder keeps the transaction from a sum over the group: it has begun, is neither
    /// the transaction nor an ancestor of it, and it locks a key of the group to write. It takes no
    /// memory.
    pub fn blocks_group(&self, tree: &Tree, holder: TxnNo, txn: TxnNo, group: &Group) -> bool
        ensures { IsTrue result
            ↔ IsBlockerAt tree.now self.now txn (target.Group group.now) Read holder }
    {
        self.writers
            .blocks(tree, holder, txn, &group.as_key(), Kind::Read)
    }

    /// Those that keep the transaction from an access of this kind to the key, the first begun
    /// first. Where there is nobody it takes no memory. The only error is that memory runs out.
    pub fn blockers(
        &self,
        tree: &Tree,
        txn: TxnNo,
        key: &Key,
        kind: Kind,
    ) -> Result<Vec<TxnNo>, NoMemory>
        ensures found { IfOk result (λ found.
            AreBlockers tree.now self.now txn (target.Key key.now) kind found.items) }
        ensures succeeds { MayAt tree.now self.now txn (target.Key key.now) kind → IsOk result }
    {
        match kind {
            Kind::Read => self.keys.blockers(tree, txn, key, Kind::Read),
            Kind::Write => {
                let mut found = self.keys.blockers(tree, txn, key, Kind::Write)?;
                add_summers(&self.sums, tree, txn, key, &mut found)?;
                Ok(found)
            }
        }
    }

    /// Those that keep the transaction from a sum over the group, the first begun first. Where
    /// there is nobody it takes no memory. The only error is that memory runs out.
    pub fn group_blockers(
        &self,
        tree: &Tree,
        txn: TxnNo,
        group: &Group,
    ) -> Result<Vec<TxnNo>, NoMemory>
        ensures found { IfOk result (λ found.
            AreBlockers tree.now self.now txn (target.Group group.now) Read found.items) }
        ensures succeeds { MayAt tree.now self.now txn (target.Group group.now) Read → IsOk result }
    {
        self.writers
            .blockers(tree, txn, &group.as_key(), Kind::Read)
    }

    /// How many lists there are of transactions whose locks meet the target: `list_at` has them.
    /// Whoever keeps another from what is asked of the target is in one of them.
    #[inline]
    pub fn lists(&self, target: &Target) -> usize
        ensures count { result ≡ lists_of target.now }
        ensures all { AreListed self.now target.now }
    {
        // What is in the lists rests on the invariant of the three tables.
        let _ = &self.keys;
        match target {
            Target::Key(key) => key.as_bytes().len(),
            Target::Group(group) => {
                let bytes = group.as_bytes();
                prove!(!bytes.is_empty());
                1
            }
        }
    }

    // Those in the list of the key at this place.
    #[inline(always)]
    fn key_list_at(&self, key: &Key, place: usize) -> &[TxnNo]
        ensures each { (u : ℕ) →
            list_any (nat_eq u) result.now ≡ is_listed self.now (target.Key key.now) place u }
        ensures rising { IsStrictlyIncreasing result.now }
    {
        if place == 0 {
            return self.keys.holders(key);
        }
        if self.sums.is_empty() {
            return &[];
        }
        match key.group_before(place) {
            Some(group) => self.sums.holders(&group.as_key()),
            None => &[],
        }
    }

    /// The transactions in the list of the target at this place, counted from 0, the first begun
    /// first. Of a key the list at 0 has those with a place at it, and the list at another place
    /// those with a place at the group of so many bytes, if it is one of the key's. Of a group the
    /// list at 0 has those with a place for a mark at it. The others have nobody.
    #[inline(always)]
    pub fn list_at(&self, target: &Target, place: usize) -> &[TxnNo]
        ensures each { (u : ℕ) →
            list_any (nat_eq u) result.now ≡ is_listed self.now target.now place u }
        ensures rising { IsStrictlyIncreasing result.now }
    {
        match target {
            Target::Key(key) => self.key_list_at(key, place),
            Target::Group(group) => {
                if place == 0 {
                    self.writers.holders(&group.as_key())
                } else {
                    &[]
                }
            }
        }
    }

    /// Makes a place for the transaction and the key, and for a write one at each group of the key
    /// for the mark, so that the key can be locked without memory. No lock changes, and each other
    /// place stays. If memory runs out, the only error, the key has no new place, and some of its
    /// groups may have one.
    pub fn reserve(&mut self, txn: TxnNo, key: &Key, kind: Kind) -> Result<(), NoMemory>
        ensures modes { HasModes self.new (modes_at self.old) }
        ensures ok { OnOk result (MayHold self.new txn key.now kind) }
        ensures err { OnErr result (HasPlaces self.new (has_place self.old)) }
        ensures places { AddsPlaces self.old self.new
            (with_place_at self.old txn (target.Key key.now)) }
        ensures marks { AddsMarkPlaces self.old self.new (with_marks self.old txn key.now kind) }
        ensures succeeds { MayHold self.old txn key.now kind → IsOk result }
    {
        match kind {
            Kind::Read => self.keys.reserve(txn, key),
            Kind::Write => {
                make_marks(&mut self.writers, txn, key)?;
                self.keys.reserve(txn, key)
            }
        }
    }

    /// Makes a place for the transaction and the group, if there is none, so that the group can be
    /// locked without memory. No lock changes, and each other place stays. If memory runs out, the
    /// only error, no place is made.
    pub fn reserve_group(&mut self, txn: TxnNo, group: &Group) -> Result<(), NoMemory>
        ensures modes { HasModes self.new (modes_at self.old) }
        ensures ok { OnOk result (IsTrue (has_place self.new txn (target.Group group.now))) }
        ensures err { OnErr result (HasPlaces self.new (has_place self.old)) }
        ensures places { AddsPlaces self.old self.new
            (with_place_at self.old txn (target.Group group.now)) }
        ensures marks { HasMarkPlaces self.new (has_mark_place self.old) }
        ensures succeeds { IsTrue (has_place self.old txn (target.Group group.now)) → IsOk result }
    {
        self.sums.reserve(txn, &group.as_key())
    }

    /// Makes a place for the parent wherever the child has one, so that the child's locks can be
    /// handed up without memory. No lock changes, and each other place stays. If memory runs out,
    /// the only error, the parent has some of these places.
    pub fn reserve_for_parent(&mut self, child: TxnNo, parent: TxnNo) -> Result<(), NoMemory>
        ensures modes { HasModes self.new (modes_at self.old) }
        ensures ok { OnOk result (MayGoUpTo self.new child parent) }
        ensures places { AddsPlaces self.old self.new (with_childs_at self.old child parent) }
        ensures marks { AddsMarkPlaces self.old self.new (with_child_marks self.old child parent) }
        ensures succeeds { MayGoUpTo self.old child parent → IsOk result }
    {
        self.keys.reserve_for_parent(child, parent)?;
        self.sums.reserve_for_parent(child, parent)?;
        self.writers.reserve_for_parent(child, parent)
    }

    /// Locks the key for an access of the transaction's own. It takes no memory.
    pub fn hold(&mut self, txn: TxnNo, key: &Key, kind: Kind)
        requires { MayHold self.old txn key.now kind }
        ensures modes { HasModes self.new
            (held_at self.old txn (target.Key key.now) (mode_of kind)) }
        ensures places { HasPlaces self.new (has_place self.old) }
        ensures marks { HasMarkPlaces self.new (has_mark_place self.old) }
    {
        match kind {
            Kind::Read => self.keys.hold(txn, key, Kind::Read),
            Kind::Write => {
                self.keys.hold(txn, key, Kind::Write);
                mark(&mut self.writers, txn, key);
            }
        }
    }

    /// Locks the group for a sum of the transaction's own. It takes no memory.
    pub fn hold_group(&mut self, txn: TxnNo, group: &Group)
        requires { IsTrue (has_place self.old txn (target.Group group.now)) }
        ensures modes { HasModes self.new
            (held_at self.old txn (target.Group group.now) mode.Read) }
        ensures places { HasPlaces self.new (has_place self.old) }
        ensures marks { HasMarkPlaces self.new (has_mark_place self.old) }
    {
        self.sums.hold(txn, &group.as_key(), Kind::Read);
    }

    /// Hands a committed child's locks up: it has none any more, and its parent retains each in the
    /// child's whole mode. Where the parent is the root they are gone. It takes no memory.
    pub fn hand_up(&mut self, child: TxnNo, parent: Option<TxnNo>)
        requires places { IfSome parent (λ p. MayGoUpTo self.old child p) }
        ensures modes { HasModes self.new (handed_up_at self.old child parent) }
        ensures places { HasPlaces self.new (places_left (nat_eq child) (has_place self.old)) }
        ensures marks { HasMarkPlaces self.new
            (places_left (nat_eq child) (has_mark_place self.old)) }
    {
        match parent {
            Some(parent) => {
                self.keys.hand_up(child, Some(parent));
                self.sums.hand_up(child, Some(parent));
                self.writers.hand_up(child, Some(parent));
            }
            None => {
                self.keys.hand_up(child, None);
                self.sums.hand_up(child, None);
                self.writers.hand_up(child, None);
            }
        }
    }

    /// Drops the locks of the transaction and of all below it. It takes no memory.
    pub fn drop_under(&mut self, tree: &Tree, txn: TxnNo)
        ensures modes { HasModes self.new (modes_left (is_under tree.now txn) self.old) }
        ensures places { HasPlaces self.new
            (places_left (is_under tree.now txn) (has_place self.old)) }
        ensures marks { HasMarkPlaces self.new
            (places_left (is_under tree.now txn) (has_mark_place self.old)) }
    {
        self.keys.drop_under(tree, txn);
        self.sums.drop_under(tree, txn);
        self.writers.drop_under(tree, txn);
    }
}
