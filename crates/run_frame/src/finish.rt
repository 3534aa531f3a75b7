//! What a task leaves when it ends.

ghost use Rattle.std.specs.Prelude.{◌≡◌, ℕ, ◌<◌, true, List, Option, Some, Bool, length, map};
ghost use Rattle.run_journal.specs.declared.cause.Cause.{Cause as ACause};
ghost use Rattle.core_frame.specs.declared.place.Place.{Place as APlace};
ghost use Rattle.fair_pool.specs.Share.{Pool as APool};
ghost use Rattle.task_shape.specs.Shape.{task_at, has};
ghost use Rattle.core_frame.specs.Step.{drops, ends_in, ends, released};
ghost use Rattle.run_frame.specs.Running.{frame_of};
ghost use Rattle.run_frame.specs.Leaving.{Leaves, EndsSenders, IsEnding, left_by};

use crate::shape::{Shape, task_of};
use fair_pool::Pool;
use gate_channels::{Group, Woken};

// Drops the receivers of these channels, each a group and a channel of it.
fn drop_receivers<B>(groups: &mut Vec<Group<B>>, woken: &mut Woken, receives: &[(u32, u32)])
where
    B: Drop,
    requires leaves { Leaves groups.old.items woken.old receives.now }

    ensures frame { (pool : APool) (places : List APlace) (progress : List Bool)
        (failure : Option ACause)
        → frame_of groups.new.items pool woken.new.tasks places progress failure
        ≡ drops receives.now
        (frame_of groups.old.items pool woken.old.tasks places progress failure) }
    ensures rooms { map (λ g. g.room) groups.new.items ≡ map (λ g. g.room) groups.old.items }
    ensures queue { woken.new.room ≡ woken.old.room }
{
    for pair in receives {
        groups[pair.0 as usize].drop_receiver(pair.1, woken);
    }
}

// Ends one sender of each of these channels of a group.
fn end_senders<B>(groups: &mut Vec<Group<B>>, woken: &mut Woken, group: u32, targets: &[u32])
    requires ends { EndsSenders groups.old.items woken.old group targets.now }

    ensures frame { (pool : APool) (places : List APlace) (progress : List Bool)
        (failure : Option ACause)
        → frame_of groups.new.items pool woken.new.tasks places progress failure
        ≡ ends_in group targets.now
        (frame_of groups.old.items pool woken.old.tasks places progress failure) }
    ensures rooms { map (λ g. g.room) groups.new.items ≡ map (λ g. g.room) groups.old.items }
    ensures queue { woken.new.room ≡ woken.old.room }
{
    for channel in targets {
        groups[group as usize].end_sender(*channel, woken);
    }
}

// Ends as a sender to each of these channels of the group that the task sends to, if any.
fn end_as_sender<B>(
    groups: &mut Vec<Group<B>>,
    woken: &mut Woken,
    sends: Option<u32>,
    targets: &[u32],
)
    requires ends { (g : ℕ) → sends ≡ Some g
        → EndsSenders groups.old.items woken.old g targets.now }

    ensures frame { (pool : APool) (places : List APlace) (progress : List Bool)
        (failure : Option ACause)
        → frame_of groups.new.items pool woken.new.tasks places progress failure
        ≡ ends sends targets.now
        (frame_of groups.old.items pool woken.old.tasks places progress failure) }
    ensures rooms { map (λ g. g.room) groups.new.items ≡ map (λ g. g.room) groups.old.items }
    ensures queue { woken.new.room ≡ woken.old.room }
{
    match sends {
        Some(group) => end_senders(groups, woken, group, targets),
        None => {}
    }
}

// All that a task leaves: its receivers are dropped, it ends as a sender, and its consumers hold nothing.
pub fn leave<B>(
    groups: &mut Vec<Group<B>>,
    woken: &mut Woken,
    pool: &mut Pool,
    shape: &Shape,
    task: u32,
)
where
    B: Drop,
    requires ending { IsEnding shape.now task groups.old.items woken.old pool.old }

    ensures frame { (places : List APlace) (progress : List Bool) (failure : Option ACause)
        → frame_of groups.new.items pool.new woken.new.tasks places progress failure
        ≡ left_by (task_at shape.now task)
        (frame_of groups.old.items pool.old woken.old.tasks places progress failure) }
    ensures rooms { map (λ g. g.room) groups.new.items ≡ map (λ g. g.room) groups.old.items }
    ensures queue { woken.new.room ≡ woken.old.room }
    ensures spillable { pool.new.spillable ≡ pool.old.spillable }
{
    let ended = task_of(shape, task);
    drop_receivers(groups, woken, ended.receives.as_slice());
    end_as_sender(groups, woken, ended.sends, ended.targets.as_slice());
    release(pool, ended.consumers.as_slice());
}

// Gives back all that these consumers hold.
fn release(pool: &mut Pool, consumers: &[u32])
    requires inside { (c : ℕ) → has consumers.now c ≡ true → c < length pool.old.spillable }

    ensures pool { pool.new ≡ released consumers.now pool.old }
{
    for consumer in consumers {
        let held = pool.held(*consumer);
        pool.shrink(*consumer, held);
    }
}
