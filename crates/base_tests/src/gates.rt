//! Gates and woken tasks.
ghost use Rattle.std.specs.Prelude.{◌≡◌, ℕ, ◌<◌, [], ◌∷◌, ◌++◌, length, OnOk, IfOk};
ghost use Rattle.task_shape.specs.Numbers.{count};

use dfx_value::NoMemory;
use gate_channels::{Group, Receiving, Sending, Woken};
use std::alloc::{AllocError, Global};
use std::process::Abort;
use std::test::Fail;

// A group of two channels with two senders each, for 8 tasks, and an empty queue of woken tasks.
fn two_by_two(alloc: Global) -> Result<(Group<u32>, Woken), NoMemory>
    ensures group { IfOk result
        (λ r. (length (r.0).gate.channels ≡ 2) × ((r.0).room ≡ 8) × ((r.0).gate.queue ≡ [])) }
    ensures woken { IfOk result (λ r. ((r.1).room ≡ 8) × ((r.1).tasks ≡ [])) }
{
    let group = Group::new(alloc, &[2, 2], 8)?;
    let woken = Woken::new(alloc, 8)?;
    Ok((group, woken))
}

// All tasks of the queue, in order.
fn taken(alloc: Global, woken: &mut Woken) -> Result<Vec<u32>, AllocError>
    ensures empty { OnOk result (woken.new.tasks ≡ []) }
    ensures room { woken.new.room ≡ woken.old.room }
{
    let mut tasks = Vec::new(alloc);
    while woken.len() > 0 {
        tasks.push(woken.take(0))?;
    }
    Ok(tasks)
}

// A send that is to put its batch into the channel, where nobody waits at the channel.
#[tactic(auto, unfolding(gate_channels::specs::Gate::sent))]
fn send(rt: &impl Abort, group: &mut Group<u32>, woken: &mut Woken, task: u32, channel: u32)
    requires numbers { (task < 8) × (channel < 2) }
    requires group { (length group.old.gate.channels ≡ 2) × (group.old.room ≡ 8) }
    requires woken { (woken.old.room ≡ 8) × (woken.old.tasks ≡ []) }
    requires idle { count task group.old.gate.queue ≡ 0 }

    ensures queue { group.new.gate.queue ≡ group.old.gate.queue }
    ensures group { (length group.new.gate.channels ≡ 2) × (group.new.room ≡ 8) }
    ensures woken { (woken.new.room ≡ 8) × (woken.new.tasks ≡ []) }
{
    match group.try_send(task, channel, 100 + channel, woken) {
        Sending::Sent => assert_eq!(rt; woken.len(), 0),
        _ => panic!(rt; "task {task} is not sent to {channel}"),
    }
}

// A send that is to wait at the gate.
#[tactic(auto, unfolding(gate_channels::specs::Gate::held))]
fn hold(rt: &impl Abort, group: &mut Group<u32>, woken: &mut Woken, task: u32, channel: u32)
    requires numbers { (task < 8) × (channel < 2) }
    requires group { (length group.old.gate.channels ≡ 2) × (group.old.room ≡ 8) }
    requires woken { (woken.old.room ≡ 8) × (woken.old.tasks ≡ []) }
    requires idle { count task group.old.gate.queue ≡ 0 }

    ensures queue { group.new.gate.queue ≡ group.old.gate.queue ++ task ∷ [] }
    ensures group { (length group.new.gate.channels ≡ 2) × (group.new.room ≡ 8) }
    ensures woken { (woken.new.room ≡ 8) × (woken.new.tasks ≡ []) }
{
    match group.try_send(task, channel, 100 + channel, woken) {
        Sending::Held(batch) => assert_eq!(rt; batch, 100 + channel),
        _ => panic!(rt; "task {task} is not held at {channel}"),
    }
}

// A send that is to find that nobody receives from any channel.
fn find_gone(rt: &impl Abort, group: &mut Group<u32>, woken: &mut Woken, task: u32, channel: u32)
    requires numbers { (task < 8) × (channel < 2) }
    requires group { (length group.old.gate.channels ≡ 2) × (group.old.room ≡ 8) }
    requires woken { (woken.old.room ≡ 8) × (woken.old.tasks ≡ []) }
    requires idle { count task group.old.gate.queue ≡ 0 }

    ensures group { group.new ≡ group.old }
    ensures woken { woken.new ≡ woken.old }
{
    match group.try_send(task, channel, 100 + channel, woken) {
        Sending::Dropped { batch, last: true } => assert_eq!(rt; batch, 100 + channel),
        _ => panic!(rt; "task {task} is not dropped at {channel}"),
    }
}

// Drops the receiver of a channel, and gives those whom that wakes.
#[tactic(auto, unfolding(gate_channels::specs::Gate::dropped))]
fn drop_receiver(
    alloc: Global,
    group: &mut Group<u32>,
    woken: &mut Woken,
    channel: u32,
) -> Result<Vec<u32>, AllocError>
    requires numbers { channel < 2 }
    requires group { (length group.old.gate.channels ≡ 2) × (group.old.room ≡ 8) }
    requires woken { (woken.old.room ≡ 8) × (woken.old.tasks ≡ []) }

    ensures queue { group.new.gate.queue ≡ [] }
    ensures group { (length group.new.gate.channels ≡ 2) × (group.new.room ≡ 8) }
    ensures woken { OnOk result ((woken.new.room ≡ 8) × (woken.new.tasks ≡ [])) }
{
    group.drop_receiver(channel, woken);
    taken(alloc, woken)
}

#[test]
fn a_full_gate_opens_when_a_channel_runs_empty(rt: HostRuntime) -> Result<(), Fail> {
    let (mut group, mut woken) = two_by_two(rt.alloc())?;
    send(&rt, &mut group, &mut woken, 5, 0);
    send(&rt, &mut group, &mut woken, 5, 0);
    send(&rt, &mut group, &mut woken, 5, 1);
    hold(&rt, &mut group, &mut woken, 5, 0);

    // Channel 0 holds another batch after this one.
    let first = group.try_recv(6, 0, &mut woken);
    assert!(rt; matches!(first, Receiving::Batch(100)));
    let nobody = taken(rt.alloc(), &mut woken)?;
    assert_eq!(rt; nobody.len(), 0);

    let second = group.try_recv(7, 1, &mut woken);
    assert!(rt; matches!(second, Receiving::Batch(101)));
    let sender = taken(rt.alloc(), &mut woken)?;
    assert_eq!(rt; sender.as_slice(), [5].as_slice());
    Ok(())
}

#[test]
fn a_dropped_receiver_wakes_the_gate(rt: HostRuntime) -> Result<(), Fail> {
    let (mut group, mut woken) = two_by_two(rt.alloc())?;
    send(&rt, &mut group, &mut woken, 3, 0);
    send(&rt, &mut group, &mut woken, 3, 1);
    hold(&rt, &mut group, &mut woken, 4, 0);
    hold(&rt, &mut group, &mut woken, 5, 1);

    let senders = drop_receiver(rt.alloc(), &mut group, &mut woken, 0)?;
    assert_eq!(rt; senders.as_slice(), [4, 5].as_slice());
    hold(&rt, &mut group, &mut woken, 4, 1);
    hold(&rt, &mut group, &mut woken, 5, 1);

    let senders = drop_receiver(rt.alloc(), &mut group, &mut woken, 1)?;
    assert_eq!(rt; senders.as_slice(), [4, 5].as_slice());
    find_gone(&rt, &mut group, &mut woken, 4, 0);
    find_gone(&rt, &mut group, &mut woken, 5, 1);
    Ok(())
}

#[test]
#[tactic(auto, unfolding(gate_channels::specs::Gate::awaited, gate_channels::specs::Gate::ended))]
fn the_last_end_wakes_the_receiver(rt: HostRuntime) -> Result<(), Fail> {
    let mut group: Group<u32> = Group::new(rt.alloc(), &[1], 3)?;
    let mut woken = Woken::new(rt.alloc(), 3)?;
    let Receiving::Empty = group.try_recv(2, 0, &mut woken) else {
        panic!(rt; "a sender has not ended");
    };
    group.end_sender(0, &mut woken);
    let receiver = taken(rt.alloc(), &mut woken)?;
    assert_eq!(rt; receiver.as_slice(), [2].as_slice());
    let answer = group.try_recv(2, 0, &mut woken);
    assert!(rt; matches!(answer, Receiving::Ended));
    Ok(())
}
