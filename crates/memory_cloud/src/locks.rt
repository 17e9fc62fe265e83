ghost use Rattle.std.specs.Prelude.{◌≡◌, ◌+◌, ◌≤◌, ◌<◌, ℕ, length, true, IfSome};
ghost use Rattle.std.specs.Ordering.{nat_cmp};
ghost use Rattle.db_base.specs.declared.names.Lock.{Lock};
ghost use Rattle.cloud_trait.specs.Names.{lock_cmp};
ghost use Rattle.cloud_trait.specs.State.{never_taken, put_at};
ghost use Rattle.memory_cloud.specs.Maps.{hold_in, numbered_hold, named_hold, changed_at, moved_by, kept_of, SetsHold, MovesHold};
ghost use Rattle.memory_cloud.specs.Outcome.{is_free};

use cloud_trait::state::Hold;
use db_base::names::Lock;
use std::alloc::{AllocError, Global};
use std::collections::BTreeMap;

/// How each lock stands that was ever taken: a client's and a tree's by its number, so that no name is looked for, and a page's by its name.
#[derive(Drop)]
pub struct Locks {
    clients: Vec<Hold>,
    trees: Vec<Hold>,
    pages: BTreeMap<Lock, Hold>,
}

impl Locks {
    /// No lock was taken. Takes no memory.
    pub fn new(alloc: Global) -> Locks
        ensures { (lock : Lock) → hold_in result lock ≡ never_taken }
    {
        Locks {
            clients: Vec::new(alloc),
            trees: Vec::new(alloc),
            pages: BTreeMap::new(alloc),
        }
    }
}

/// How a lock stands.
pub fn hold(locks: &Locks, lock: &Lock) -> Hold
    ensures { result ≡ hold_in locks.now lock.now }
{
    match *lock {
        Lock::Client(client) => numbered(locks.clients.as_slice(), client.get()),
        Lock::Tree(tree) => numbered(locks.trees.as_slice(), tree.get()),
        Lock::Page(_, _) => named(&locks.pages, lock),
    }
}

/// Sets how a lock stands.
pub fn set_hold(locks: &mut Locks, lock: &Lock, hold: Hold) -> Result<(), AllocError>
    ensures { SetsHold result locks.old lock.now hold locks.new }
{
    match *lock {
        Lock::Client(client) => set_numbered(&mut locks.clients, client.get(), hold),
        Lock::Tree(tree) => set_numbered(&mut locks.trees, tree.get(), hold),
        Lock::Page(_, _) => set_named(&mut locks.pages, lock, hold),
    }
}

/// Gives a lock that has a place anew until then, where it is free: how it stands from now on. Takes no memory.
pub fn give_again(locks: &mut Locks, lock: &Lock, now: u64, until: u64) -> Option<Hold>
    ensures free { IfSome result (λ hold. is_free (hold_in locks.old lock.now) now ≡ true) }
    ensures hold { IfSome result (λ hold. hold ≡ record { generation = (hold_in locks.old lock.now).generation + 1; until = until }) }
    ensures given { (q : Lock) → hold_in locks.new q ≡ changed_at lock_cmp (hold_in locks.old) lock.now result q }
{
    match *lock {
        Lock::Client(client) => give_numbered(&mut locks.clients, client.get(), now, until),
        Lock::Tree(tree) => give_numbered(&mut locks.trees, tree.get(), now, until),
        Lock::Page(_, _) => give_named(&mut locks.pages, lock, now, until),
    }
}

/// Moves the end of a lock that stands in this generation. Takes no memory.
pub fn move_hold(locks: &mut Locks, lock: &Lock, generation: u64, until: u64)
    ensures { MovesHold locks.old lock.now generation until locks.new }
{
    match *lock {
        Lock::Client(client) => move_numbered(&mut locks.clients, client.get(), generation, until),
        Lock::Tree(tree) => move_numbered(&mut locks.trees, tree.get(), generation, until),
        Lock::Page(_, _) => move_named(&mut locks.pages, lock, generation, until),
    }
}

// How a lock stands that was never taken.
fn never_taken() -> Hold
    ensures { result ≡ never_taken }
{
    Hold {
        generation: 0,
        until: 0,
    }
}

// How a lock stands that is given anew, where it is free.
fn given(hold: Hold, now: u64, until: u64) -> Option<Hold>
    ensures free { IfSome result (λ next. is_free hold now ≡ true) }
    ensures next { IfSome result (λ next. next ≡ record { generation = hold.generation + 1; until = until }) }
{
    if hold.until > now || hold.generation == u64::MAX {
        return None;
    }
    Some(Hold {
        generation: hold.generation + 1,
        until,
    })
}

// ---- by number

fn numbered(holds: &[Hold], number: u64) -> Hold
    ensures { result ≡ numbered_hold holds.now number }
{
    match holds.get(number as usize) {
        Some(hold) => *hold,
        None => never_taken(),
    }
}

// Sets how the lock of a number stands that has a place.
fn put_numbered(holds: &mut Vec<Hold>, place: usize, hold: Hold)
    requires { place < length holds.old.items }
    ensures { (n : ℕ) → numbered_hold holds.new.items n ≡ put_at nat_cmp (numbered_hold holds.old.items) place hold n }
{
    holds[place] = hold;
}

fn set_numbered(holds: &mut Vec<Hold>, number: u64, hold: Hold) -> Result<(), AllocError>
    requires { number ≤ 64 }
    ensures { (n : ℕ) → numbered_hold holds.new.items n ≡ changed_at nat_cmp (numbered_hold holds.old.items) number (kept_of result hold) n }
{
    let place = number as usize;
    if place >= holds.len() {
        holds.resize(place + 1, never_taken())?;
    }
    put_numbered(holds, place, hold);
    Ok(())
}

fn give_numbered(holds: &mut Vec<Hold>, number: u64, now: u64, until: u64) -> Option<Hold>
    ensures free { IfSome result (λ hold. is_free (numbered_hold holds.old.items number) now ≡ true) }
    ensures hold { IfSome result (λ hold. hold ≡ record { generation = (numbered_hold holds.old.items number).generation + 1; until = until }) }
    ensures given { (n : ℕ) → numbered_hold holds.new.items n ≡ changed_at nat_cmp (numbered_hold holds.old.items) number result n }
{
    let place = number as usize;
    if place >= holds.len() {
        return None;
    }
    let next = given(numbered(holds.as_slice(), number), now, until)?;
    put_numbered(holds, place, next);
    Some(next)
}

fn move_numbered(holds: &mut Vec<Hold>, number: u64, generation: u64, until: u64)
    ensures { (n : ℕ) → numbered_hold holds.new.items n ≡ moved_by nat_cmp (numbered_hold holds.old.items) number generation until n }
{
    let place = number as usize;
    let hold = numbered(holds.as_slice(), number);
    if place < holds.len() && generation > 0 && hold.generation == generation {
        put_numbered(holds, place, Hold { generation, until });
    }
}

// ---- by name

#[inline(never)]
fn named(holds: &BTreeMap<Lock, Hold>, lock: &Lock) -> Hold
    ensures { result ≡ named_hold holds.now lock.now }
{
    match holds.get(lock) {
        Some(hold) => *hold,
        None => never_taken(),
    }
}

#[inline(never)]
fn set_named(holds: &mut BTreeMap<Lock, Hold>, lock: &Lock, hold: Hold) -> Result<(), AllocError>
    ensures { (q : Lock) → named_hold holds.new q ≡ changed_at lock_cmp (named_hold holds.old) lock.now (kept_of result hold) q }
{
    holds.insert(*lock, hold)?;
    Ok(())
}

#[inline(never)]
fn give_named(holds: &mut BTreeMap<Lock, Hold>, lock: &Lock, now: u64, until: u64) -> Option<Hold>
    ensures free { IfSome result (λ hold. is_free (named_hold holds.old lock.now) now ≡ true) }
    ensures hold { IfSome result (λ hold. hold ≡ record { generation = (named_hold holds.old lock.now).generation + 1; until = until }) }
    ensures given { (q : Lock) → named_hold holds.new q ≡ changed_at lock_cmp (named_hold holds.old) lock.now result q }
{
    let hold = holds.get_mut(lock)?;
    if hold.until > now || hold.generation == u64::MAX {
        return None;
    }
    hold.generation += 1;
    hold.until = until;
    Some(*hold)
}

#[inline(never)]
fn move_named(holds: &mut BTreeMap<Lock, Hold>, lock: &Lock, generation: u64, until: u64)
    ensures { (q : Lock) → named_hold holds.new q ≡ moved_by lock_cmp (named_hold holds.old) lock.now generation until q }
{
    if let Some(hold) = holds.get_mut(lock) {
        if generation > 0 && hold.generation == generation {
            hold.until = until;
        }
    }
}
