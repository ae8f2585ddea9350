//! Accesses of keys and sums over groups: what is asked, in the locks and the versions at once.
ghost use Rattle.std.specs.Prelude.{◌≡◌, ◌≤◌, ◌↔◌, ℕ, List, IsOk, IfOk, OnErr, OnOk, IsSome, IfNone, IfSome, IsTrue};
ghost use Rattle.serial_spec.specs.declared.operation.Kind.TheVariants.{Read};
ghost use Rattle.serial_spec.specs.declared.target.Asked.TheVariants.{At, Over};
ghost use Rattle.serial_spec.specs.declared.target.Target.TheVariants as target;
ghost use Rattle.serial_spec.specs.Operations.{kind, reply_of};
ghost use Rattle.serial_spec.specs.Serial.{reply_at};
ghost use Rattle.serial_spec.specs.Sums.{reply_of_sum, sum_in};
ghost use Rattle.serial_spec.specs.Targets.{kind_of};
ghost use Rattle.lock_table.specs.ByAsked.{MayAsk};
ghost use Rattle.lock_table.specs.Targeted.{MayAt, has_place};
ghost use Rattle.version_stack.specs.Seen.{seen_in};
ghost use Rattle.version_stack.specs.Versioned.{left_in};
ghost use Rattle.inherit.specs.LocksAndVersions.{HasPlace, IsSame, MayLeave};
ghost use Rattle.inherit.specs.Steps.{HasAccessed, HasSummed, left_more};

use crate::estate::Estate;
use serial_spec::{Asked, Kind, Left, NoMemory, Op, Reply, act};
use txn_names::{Group, Key};
use txn_tree::{Tree, TxnNo};
use version_stack::Versions;

// The reply at what the transaction sees.
fn reply_for(versions: &Versions, tree: &Tree, txn: TxnNo, asked: &Asked) -> Reply
    ensures { result ≡ reply_at (seen_in tree.now versions.now txn) asked.now }
{
    match asked {
        // A set and a del are replied Ok whatever stands there, so that no value is looked for.
        Asked::At(_, Op::Set(_) | Op::Del) => Reply::Ok,
        Asked::At(key, op) => {
            let (_, reply) = act(versions.value_for(tree, txn, key), op);
            reply
        }
        Asked::Over(group) => match versions.sum_for(tree, txn, group) {
            Some(sum) => Reply::Value(sum),
            None => Reply::Overflow,
        },
    }
}

// Makes a place for the value that is left by what is asked, if one is.
#[inline(always)]
fn make_place(versions: &mut Versions, txn: TxnNo, asked: &Asked) -> Result<(), NoMemory>
    ensures left { (u : ℕ) → (q : List ℕ) → left_in versions.new u q ≡ left_in versions.old u q }
    ensures base { versions.new.base ≡ versions.old.base }
    ensures ok { OnOk result (MayLeave versions.new txn asked.now) }
    ensures succeeds { MayLeave versions.old txn asked.now → IsOk result }
    ensures read { kind_of asked.now ≡ Read → versions.new ≡ versions.old }
{
    match asked {
        Asked::At(key, op) => match op.kind() {
            Kind::Read => Ok(()),
            Kind::Write => versions.reserve(txn, key),
        },
        Asked::Over(_) => Ok(()),
    }
}

// The transaction leaves what its access leaves by this reply, if it is something.
#[inline(always)]
fn leave(versions: &mut Versions, txn: TxnNo, asked: &Asked, reply: Reply)
    requires { MayLeave versions.old txn asked.now }
    ensures left { (u : ℕ) → (q : List ℕ) →
        left_in versions.new u q ≡ left_more versions.old txn asked.now reply u q }
    ensures base { versions.new.base ≡ versions.old.base }
    ensures read { kind_of asked.now ≡ Read → versions.new ≡ versions.old }
{
    if let Asked::At(key, op) = asked {
        match op.leaves(reply) {
            Left::Nothing => {}
            Left::Absent => versions.put(txn, key, None),
            Left::Value(value) => versions.put(txn, key, Some(value)),
        }
    }
}

impl Estate {
    // Tells the versions where they have the key that the locks remember.
    #[inline(always)]
    fn expect_versions(&mut self)
        ensures { self.new ≡ self.old }
    {
        if let Some(hint) = self.hints.at(self.locks.key_hint()) {
            self.versions.expect(hint);
        }
    }

    // Keeps in mind where the versions have the key that has been locked, if it is written.
    #[inline(always)]
    fn note_versions(&mut self, asked: &Asked)
        ensures { self.new ≡ self.old }
    {
        if asked.kind() == Kind::Write {
            self.hints.put(self.locks.key_hint(), self.versions.hint());
        }
    }

    /// Makes all growths of an access or a sum beforehand, as `reserve_for` of its event does. The
    /// only error is that memory runs out.
    pub fn reserve_asked(&mut self, txn: TxnNo, asked: &Asked) -> Result<(), NoMemory>
        ensures succeeds { HasPlace self.old txn asked.now → IsOk result }
        ensures ok { OnOk result (HasPlace self.new txn asked.now) }
        ensures same { IsSame self.old self.new }
        ensures room { self.old.versions.base.room ≤ self.new.versions.base.room }
        ensures read { kind_of asked.now ≡ Read → self.new.versions ≡ self.old.versions }
    {
        self.locks.reserve_asked(txn, asked)?;
        make_place(&mut self.versions, txn, asked)
    }

    /// Whether no lock keeps the transaction from what it asks, as `may_ask` of the locks tells it.
    /// A key is looked up once and remembered, so that `reserve_asked` and `grant` find its lock
    /// without another look-up. Nothing changes, and it takes no memory.
    #[inline(always)]
    pub fn may_ask_remembering(&mut self, tree: &Tree, txn: TxnNo, asked: &Asked) -> bool
        ensures may { IsTrue result ↔ MayAsk tree.now self.old.locks txn asked.now }
        ensures same { self.new ≡ self.old }
    {
        self.locks.may_ask_remembering(tree, txn, asked)
    }

    /// Does what is asked of a transaction that no lock keeps out, as `may_ask` of the locks told:
    /// the reply at what it sees, and the transaction has locked the key or the group and left what
    /// the access leaves. It takes no memory.
    pub fn grant(&mut self, tree: &Tree, txn: TxnNo, asked: &Asked) -> Reply
        requires place { HasPlace self.old txn asked.now }
        requires may { MayAsk tree.now self.old.locks txn asked.now }
        ensures reply { result ≡ reply_at (seen_in tree.now self.old.versions txn) asked.now }
        ensures accessed { HasAccessed self.old self.new txn asked.now result }
        ensures read { kind_of asked.now ≡ Read → self.new.versions ≡ self.old.versions }
    {
        let reply = reply_for(&self.versions, tree, txn, asked);
        self.locks.hold_asked(txn, asked);
        leave(&mut self.versions, txn, asked, reply);
        reply
    }

    /// Makes all growths of what is asked of a transaction that no lock keeps out, as `may_ask` of
    /// the locks told, and does it: what `reserve_asked` and then `grant` do, by one look at a key
    /// among the locks. The only error is that memory runs out. What is locked, left and seen is
    /// then as it was.
    #[inline(always)]
    pub fn take(&mut self, tree: &Tree, txn: TxnNo, asked: &Asked) -> Result<Reply, NoMemory>
        requires may { MayAsk tree.now self.old.locks txn asked.now }
        ensures reply { IfOk result (λ reply.
            reply ≡ reply_at (seen_in tree.now self.old.versions txn) asked.now) }
        ensures accessed { IfOk result (λ reply.
            HasAccessed self.old self.new txn asked.now reply) }
        ensures same { OnErr result (IsSame self.old self.new) }
        ensures base { self.new.versions.base ≡ self.old.versions.base }
        ensures read { kind_of asked.now ≡ Read → self.new.versions ≡ self.old.versions }
        ensures succeeds { HasPlace self.old txn asked.now → IsOk result }
    {
        self.expect_versions();
        make_place(&mut self.versions, txn, asked)?;
        self.locks.lock_asked(txn, asked)?;
        let reply = reply_for(&self.versions, tree, txn, asked);
        leave(&mut self.versions, txn, asked, reply);
        self.note_versions(asked);
        Ok(reply)
    }

    /// Does what is asked: nothing where a lock keeps the transaction out, and then nothing has
    /// changed; else the reply at what it sees, and the transaction has locked the key or the group
    /// and left what the access leaves. It takes no memory.
    pub fn ask(&mut self, tree: &Tree, txn: TxnNo, asked: &Asked) -> Option<Reply>
        requires place { HasPlace self.old txn asked.now }
        ensures may { IsSome result ↔ MayAsk tree.now self.old.locks txn asked.now }
        ensures reply { IfSome result (λ reply.
            reply ≡ reply_at (seen_in tree.now self.old.versions txn) asked.now) }
        ensures blocked { IfNone result (self.new ≡ self.old) }
        ensures accessed { IfSome result (λ reply.
            HasAccessed self.old self.new txn asked.now reply) }
        ensures read { kind_of asked.now ≡ Read → self.new.versions ≡ self.old.versions }
    {
        if !self.locks.may_ask(tree, txn, asked) {
            return None;
        }
        Some(self.grant(tree, txn, asked))
    }

    /// Accesses the key: nothing where a lock keeps the transaction out, and then nothing has
    /// changed; else the reply at the value that it sees, and the transaction has locked the key
    /// and left there what the access leaves. It takes no memory.
    pub fn access(&mut self, tree: &Tree, txn: TxnNo, key: &Key, op: Op) -> Option<Reply>
        requires place { HasPlace self.old txn (At key.now op) }
        ensures may { IsSome result
            ↔ MayAt tree.now self.old.locks txn (target.Key key.now) (kind op) }
        ensures reply { IfSome result (λ reply.
            reply ≡ reply_of (seen_in tree.now self.old.versions txn key.now) op) }
        ensures blocked { IfNone result (self.new ≡ self.old) }
        ensures accessed { IfSome result (λ reply.
            HasAccessed self.old self.new txn (At key.now op) reply) }
    {
        self.ask(tree, txn, &Asked::At(*key, op))
    }

    /// Sums over the group: nothing where a lock keeps the transaction out, and then nothing has
    /// changed; else the sum of what it sees, or overflow where that is not an i64, and the
    /// transaction has locked the group to read. It takes no memory.
    pub fn sum(&mut self, tree: &Tree, txn: TxnNo, group: &Group) -> Option<Reply>
        requires place { IsTrue (has_place self.old.locks txn (target.Group group.now)) }
        ensures may { IsSome result
            ↔ MayAt tree.now self.old.locks txn (target.Group group.now) Read }
        ensures reply { IfSome result (λ reply.
            reply ≡ reply_of_sum (sum_in (seen_in tree.now self.old.versions txn) group.now)) }
        ensures blocked { IfNone result (self.new ≡ self.old) }
        ensures summed { IfSome result (λ _. HasSummed self.old self.new txn group.now) }
    {
        self.ask(tree, txn, &Asked::Over(*group))
    }
}
