//! The sums over groups, which follow the values of the keys: a look at a sum goes through no keys.
ghost use Rattle.std.specs.Prelude.{◌≡◌, ◌<◌, ◌-ℤ◌, length, pos, IsTrue, Some};
ghost use Rattle.std.specs.Map.{keys_of};
ghost use Rattle.std.specs.List.{AllByRecursion, IsDistinct};
ghost use Rattle.indexmap.specs.IndexMap.{keys, set_value_at};
ghost use Rattle.txn_names.specs.Groups.{has};
ghost use Rattle.txn_names.specs.Path.{label_eq};
ghost use Rattle.txn_names.specs.Text.{IsKey};
ghost use Rattle.serial_spec.specs.Operations.{amount};
ghost use Rattle.report_tables.specs.inner.Tallied.{AreCounted, AreNamed, AreTallied, HaveRoom, IsFine, IsValue, at_group, by_key, raised};
ghost use Rattle.report_tables.specs.Valued.{AtEntry, AtPlace};

use crate::values::{Groups, Values};
use txn_names::{Group, Key};

// Adds to the sum of the group, if it is one that is summed.
fn raise(groups: &mut Groups, group: &Group, difference: i128)
    requires { HaveRoom (λ g. IsTrue (label_eq group.now g)) difference groups.old.entries }
    ensures { groups.new.entries ≡ raised (at_group group.now difference) groups.old.entries }
{
    let Some(number) = groups.get_index_of(group) else {
        return;
    };
    if let Some(sum) = groups.get_index_mut(number) {
        *sum += difference;
    }
}

// Adds to the sum of each group that has the key.
fn raise_all(groups: &mut Groups, key: &Key, difference: i128)
    requires named { AreNamed groups.old.entries }
    requires room { HaveRoom (λ g. IsTrue (has g key.now)) difference groups.old.entries }
    ensures sums { groups.new.entries ≡ raised (by_key key.now difference) groups.old.entries }
    ensures key { IsKey key.now }
{
    for place in 1..key.as_bytes().len() {
        if let Some(group) = key.group_before(place) {
            raise(groups, &group, difference);
        }
    }
}

// What another value of a key adds to the sums over its groups.
fn difference(before: &Option<i64>, after: Option<i64>) -> i128
    ensures difference { result ≡ amount after -ℤ amount before.now }
    ensures before { IsValue before.now }
    ensures after { IsValue after }
{
    i128::from(after.unwrap_or(0)) - i128::from(before.unwrap_or(0))
}

// Makes the sums what they are once the key with this number has this value.
fn follow(groups: &mut Groups, values: &Values, number: usize, value: Option<i64>)
    requires { AreTallied values.now.entries groups.old.entries }
    ensures keys { keys groups.new ≡ keys groups.old }
    ensures tallied { AreTallied (set_value_at values.now.entries number value) groups.new.entries }
{
    if groups.is_empty() {
        return;
    }
    if let Some((key, before)) = values.get_index(number) {
        raise_all(groups, key, difference(before, value));
    }
}

/// Gives the key with this number a value, and its groups the sums that they then have.
pub(crate) fn set_value(values: &mut Values, groups: &mut Groups, number: usize, value: Option<i64>)
    requires { AreTallied values.old.entries groups.old.entries }
    ensures value { values.new.entries ≡ set_value_at values.old.entries number value }
    ensures distinct { IsDistinct label_eq (keys values.old) }
    ensures keys { keys groups.new ≡ keys groups.old }
    ensures tallied { AreTallied values.new.entries groups.new.entries }
{
    follow(groups, values, number, value);
    if let Some(place) = values.get_index_mut(number) {
        *place = value;
    }
}

// Makes the sum over the group with this number 0.
fn clear_at(groups: &mut Groups, number: usize)
    ensures sum { groups.new.entries ≡ set_value_at groups.old.entries number (pos 0) }
    ensures named { AtPlace (keys groups.old) number (λ g. 0 < length g) }
{
    let Some((group, _)) = groups.get_index(number) else {
        return;
    };
    let _bytes = group.as_bytes();
    if let Some(sum) = groups.get_index_mut(number) {
        *sum = 0;
    }
}

// Makes each sum 0.
fn clear(groups: &mut Groups)
    ensures keys { keys groups.new ≡ keys groups.old }
    ensures named { AreNamed groups.new.entries }
    ensures sums { AllByRecursion (λ e. e.1 ≡ pos 0) groups.new.entries }
{
    for number in 0..groups.len() {
        clear_at(groups, number);
    }
}

// Adds the value of the key with this number to the sums over its groups.
fn count_at(groups: &mut Groups, values: &Values, number: usize)
    requires named { AreNamed groups.old.entries }
    requires room { AtEntry values.now.entries number
        (λ k v. IsValue v → HaveRoom (λ g. IsTrue (has g k)) (amount v) groups.old.entries) }
    ensures fine { AtEntry values.now.entries number (λ k v. IsFine (k, v)) }
    ensures sums { AtEntry values.now.entries number
        (λ k v. groups.new.entries ≡ raised (by_key k (amount v)) groups.old.entries) }
{
    if let Some((key, value)) = values.get_index(number) {
        raise_all(groups, key, difference(&None, *value));
    }
}

// Adds the values of all keys to the sums over their groups, which were 0.
fn count(groups: &mut Groups, values: &Values)
    requires named { AreNamed groups.old.entries }
    requires sums { AllByRecursion (λ e. e.1 ≡ pos 0) groups.old.entries }
    ensures keys { keys groups.new ≡ keys groups.old }
    ensures named { AreNamed groups.new.entries }
    ensures counted { AreCounted values.now.entries groups.new.entries }
{
    for number in 0..values.len() {
        count_at(groups, values, number);
    }
}

/// Makes each sum that of the values. Where nothing is summed it goes through no keys.
pub(crate) fn tally(groups: &mut Groups, values: &Values)
    ensures keys { keys groups.new ≡ keys groups.old }
    ensures tallied { AreTallied values.now.entries groups.new.entries }
{
    clear(groups);
    if !groups.is_empty() {
        count(groups, values);
    }
}
