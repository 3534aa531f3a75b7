//! What the consumers of a memory limit hold of it.

ghost use Rattle.std.specs.Prelude.{◌≡◌, ℕ, ◌+◌, ◌-◌, ◌<◌, ◌≤◌, ◌↔◌, sum, length, IsOk, IfOk, IfErr, OnOk, OnErr, slice_set};
ghost use Rattle.fair_pool.specs.Share.{unreserved, share_of, held_by, with_held, spillables};
ghost use Rattle.fair_pool.specs.Refusal.{Tells};

use dfx_value::NoMemory;
use std::alloc::Global;
use std::marker::Model;

/// A request past the consumer's share, in bytes.
#[derive(Clone, Copy, Debug, PartialEq, Eq)]
pub struct Exhausted {
    /// How much more was asked.
    pub requested: u64,
    /// What the consumer holds. All consumers together hold no more than the limit.
    pub held: u64,
    /// What it may hold at most.
    pub share: u64,
}

/// What each consumer holds of one limit, in bytes.
///
/// A consumer may hold what the others leave. One that can spill may hold no more than a fair part: what the
/// consumers that can't spill leave of the limit, divided by the number of those that can.
#[derive(Drop)]
pub struct Pool {
    limit: u64,
    spillable: Vec<bool>,
    held: Vec<u64>,
    // What all consumers hold, what those hold that cannot spill, and how many can.
    in_all: u64,
    unspillable: u64,
    spillables: u64,
}

impl Model for Pool {
    ghost use Rattle.fair_pool.specs.Share.{Pool};
    ghost use Rattle.fair_pool.specs.Tally.{IsTallied};

    ghost Value = { Pool };

    ghost view = { λ p. record {
      limit = p.limit;
      spillable = p.spillable.items;
      held = p.held.items;
    } };

    ghost invariant = { λ p. IsTallied p.limit p.spillable.items p.held.items
        p.in_all p.unspillable p.spillables };
}

// How many consumers can spill.
fn count_spillable(spillable: &[bool]) -> u64
    ensures { result ≡ spillables spillable.now }
{
    let mut many = 0;
    for can_spill in spillable {
        if *can_spill {
            many += 1;
        }
    }
    many
}

impl Pool {
    /// A pool of `limit` bytes of which nothing is held, with one consumer for each member of `spillable`, which says
    /// whether it can spill.
    pub fn new(alloc: Global, limit: u64, spillable: &[bool]) -> Result<Pool, NoMemory>
        ensures ok { IfOk result (λ pool. pool ≡ unreserved limit spillable.now) }
    {
        Ok(Pool {
            limit,
            spillable: spillable.to_vec(alloc)?,
            held: vec![in alloc; 0; spillable.len()]?,
            in_all: 0,
            unspillable: 0,
            spillables: count_spillable(spillable),
        })
    }

    /// What the consumer holds. All consumers together hold no more than the limit.
    pub fn held(&self, consumer: u32) -> u64
        requires inside { consumer < length self.now.spillable }
        ensures held { result ≡ held_by self.now consumer }
        ensures within { sum self.now.held ≤ self.now.limit }
    {
        self.held[consumer as usize]
    }

    /// What the consumer may hold at most.
    pub fn share(&self, consumer: u32) -> u64
        requires inside { consumer < length self.now.spillable }
        ensures share { result ≡ share_of self.now consumer }
    {
        let at = consumer as usize;
        let room = self.limit - (self.in_all - self.held[at]);
        if self.spillable[at] {
            room.min((self.limit - self.unspillable) / self.spillables)
        } else {
            room
        }
    }

    /// Reserves `bytes` more for a consumer. A request past its share tells what was asked, held and allowed, and
    /// changes nothing. It takes no memory.
    pub fn try_grow(&mut self, consumer: u32, bytes: u64) -> Result<(), Exhausted>
        requires inside { consumer < length self.old.spillable }

        ensures granted { IsOk result ↔
            (held_by self.old consumer + bytes ≤ share_of self.old consumer) }
        ensures ok { OnOk result
            (self.new ≡ with_held self.old consumer (held_by self.old consumer + bytes)) }

        ensures above { OnErr result
            (share_of self.old consumer < held_by self.old consumer + bytes) }
        ensures tells { IfErr result (λ e. Tells self.old consumer bytes e) }
        ensures err { OnErr result (self.new ≡ self.old) }
    {
        let held = self.held(consumer);
        let share = self.share(consumer);
        if share < held || share - held < bytes {
            return Err(Exhausted {
                requested: bytes,
                held,
                share,
            });
        }
        self.hold(consumer, held + bytes);
        Ok(())
    }

    /// Gives back `bytes` of what the consumer holds. It takes no memory.
    pub fn shrink(&mut self, consumer: u32, bytes: u64)
        requires inside { consumer < length self.old.spillable }
        requires bytes { bytes ≤ held_by self.old consumer }

        ensures held { self.new ≡ with_held self.old consumer (held_by self.old consumer - bytes) }
    {
        let held = self.held(consumer);
        self.hold(consumer, held - bytes);
    }

    // Writes what the consumer holds from now on.
    fn hold(&mut self, consumer: u32, bytes: u64)
        requires inside { consumer < length self.old.spillable }
        requires within { sum (slice_set self.old.held consumer bytes) ≤ self.old.limit }
        ensures { self.new ≡ with_held self.old consumer bytes }
    {
        let at = consumer as usize;
        let before = self.held[at];
        self.in_all = self.in_all - before + bytes;
        self.unspillable = if self.spillable[at] {
            self.unspillable
        } else {
            self.unspillable - before + bytes
        };
        self.held[at] = bytes;
    }
}
