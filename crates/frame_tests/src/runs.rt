//! A run of two tasks from its opening to its end, and runs that fail.
ghost use Rattle.std.specs.Prelude.{◌≡◌, ◌<◌, length, false, None, IfOk};
ghost use Rattle.core_frame.specs.Frame.{owns, place_of};
ghost use Rattle.core_frame.specs.declared.place.Place.TheVariants.{OwnedBy};
ghost use Rattle.frame_tests.specs.Pair as spec;

use dfx_value::{NoMemory, Seq};
use gate_channels::{Receiving, Sending};
use run_frame::{RunFrame, Shape, TaskShape};
use run_journal::{Cause, EntryKind};
use std::alloc::Global;
use std::process::Abort;
use std::test::Fail;

// A plan of a root, which receives from the one channel of group 1, and of the task that sends there, whose consumer can
// spill.
fn pair(alloc: Global) -> Result<Shape, NoMemory>
    ensures { IfOk result (λ shape. shape ≡ spec.pair) }
{
    let root = TaskShape {
        stage: 0,
        sends: None,
        targets: Seq::from_vec(Vec::new(alloc)),
        receives: Seq::from_vec(vec![in alloc; (1u32, 0u32)]?),
        consumers: Seq::from_vec(Vec::new(alloc)),
    };
    let sender = TaskShape {
        stage: 1,
        sends: Some(1),
        targets: Seq::from_vec(vec![in alloc; 0u32]?),
        receives: Seq::from_vec(Vec::new(alloc)),
        consumers: Seq::from_vec(vec![in alloc; 0u32]?),
    };
    Ok(Shape {
        tasks: Seq::from_vec(vec![in alloc; root, sender]?),
        widths: Seq::from_vec(vec![in alloc; 0u32, 1]?),
        spillable: Seq::from_vec(vec![in alloc; true]?),
    })
}

// Its run under a limit of 100 bytes.
fn opened(alloc: Global) -> Result<RunFrame<u32>, NoMemory>
    ensures shape { IfOk result (λ frame. frame.shape ≡ spec.pair) }
{
    RunFrame::start(alloc, pair(alloc)?, 100)
}

// It is this worker.
fn is_worker(owner: Option<u32>, worker: u32) -> bool
    ensures { result ≡ spec.is_worker owner worker }
{
    match owner {
        Some(other) => other == worker,
        None => false,
    }
}

// The worker owns the task, so that an entry may be made.
fn owns(rt: &impl Abort, frame: &RunFrame<u32>, worker: u32, task: u32)
    requires shape { frame.now.shape ≡ spec.pair }
    requires task { task < 2 }

    ensures alive { frame.now.frame.failure ≡ None }
    ensures owned { place_of frame.now.frame task ≡ OwnedBy worker }
{
    frame.vouch();
    if frame.failed().is_some() {
        panic!(rt; "the run has failed");
    }
    if !is_worker(frame.owner(task), worker) {
        panic!(rt; "worker {worker} does not own task {task}");
    }
}

// The worker owns no task, so that it may claim one.
fn is_free(rt: &impl Abort, frame: &RunFrame<u32>, worker: u32)
    requires shape { frame.now.shape ≡ spec.pair }

    ensures alive { frame.now.frame.failure ≡ None }
    ensures free { owns worker frame.now.frame.places ≡ false }
{
    frame.vouch();
    if frame.failed().is_some() {
        panic!(rt; "the run has failed");
    }
    let first = is_worker(frame.owner(0), worker);
    let second = is_worker(frame.owner(1), worker);
    if first || second {
        panic!(rt; "worker {worker} owns a task");
    }
}

// A claim of the woken task at a place.
fn claim(rt: &impl Abort, frame: &mut RunFrame<u32>, worker: u32, at: u32) -> u32
    requires shape { frame.old.shape ≡ spec.pair }
    ensures shape { frame.new.shape ≡ spec.pair }
{
    is_free(rt, frame, worker);
    if frame.woken() <= at {
        panic!(rt; "no task is woken at {at}");
    }
    frame.claim_at(worker, at)
}

// A claim for which memory is wanting.
fn fail_to_claim(rt: &impl Abort, frame: &mut RunFrame<u32>, worker: u32, at: u32) -> u32
    requires shape { frame.old.shape ≡ spec.pair }
    ensures shape { frame.new.shape ≡ spec.pair }
{
    is_free(rt, frame, worker);
    if frame.woken() <= at {
        panic!(rt; "no task is woken at {at}");
    }
    frame.fail_claim(worker, at)
}

// The sender sends a batch.
fn send(rt: &impl Abort, frame: &mut RunFrame<u32>, worker: u32, batch: u32) -> Sending<u32>
    requires shape { frame.old.shape ≡ spec.pair }
    ensures shape { frame.new.shape ≡ spec.pair }
{
    owns(rt, frame, worker, 1);
    frame.send(worker, 1, 0, batch)
}

// The root receives.
fn receive(rt: &impl Abort, frame: &mut RunFrame<u32>, worker: u32) -> Receiving<u32>
    requires shape { frame.old.shape ≡ spec.pair }
    ensures shape { frame.new.shape ≡ spec.pair }
{
    owns(rt, frame, worker, 0);
    frame.receive(worker, 0, 1, 0)
}

// The sender's consumer reserves memory.
fn grow(rt: &impl Abort, frame: &mut RunFrame<u32>, worker: u32, bytes: u64) -> EntryKind
    requires shape { frame.old.shape ≡ spec.pair }
    ensures shape { frame.new.shape ≡ spec.pair }
{
    owns(rt, frame, worker, 1);
    frame.grow(worker, 1, 0, bytes)
}

// The sender's consumer gives all back.
fn free(rt: &impl Abort, frame: &mut RunFrame<u32>, worker: u32)
    requires shape { frame.old.shape ≡ spec.pair }
    ensures shape { frame.new.shape ≡ spec.pair }
{
    owns(rt, frame, worker, 1);
    frame.free(worker, 1, 0);
}

// A task has scanned or written, and goes back to the queue.
fn go_round(rt: &impl Abort, frame: &mut RunFrame<u32>, worker: u32, task: u32)
    requires shape { frame.old.shape ≡ spec.pair }
    requires task { task < 2 }
    ensures shape { frame.new.shape ≡ spec.pair }
{
    owns(rt, frame, worker, task);
    frame.go_on(worker, task);
    owns(rt, frame, worker, task);
    if !frame.has_progress(task) {
        panic!(rt; "task {task} has no progress");
    }
    frame.yield_back(worker, task);
}

// A task ends.
fn finish(rt: &impl Abort, frame: &mut RunFrame<u32>, worker: u32, task: u32)
    requires shape { frame.old.shape ≡ spec.pair }
    requires task { task < 2 }
    ensures shape { frame.new.shape ≡ spec.pair }
{
    owns(rt, frame, worker, task);
    frame.finish(worker, task);
}

fn is_sent(answer: Sending<u32>) -> bool {
    matches!(answer, Sending::Sent)
}

fn is_held(answer: Sending<u32>) -> bool {
    matches!(answer, Sending::Held(_))
}

// The batch that is received, if one is.
fn batch_of(answer: Receiving<u32>) -> Option<u32> {
    match answer {
        Receiving::Batch(batch) => Some(batch),
        _ => None,
    }
}

fn is_empty(answer: Receiving<u32>) -> bool {
    matches!(answer, Receiving::Empty)
}

fn is_ended(answer: Receiving<u32>) -> bool {
    matches!(answer, Receiving::Ended)
}

#[test]
fn a_run_goes_from_its_opening_to_its_end(rt: HostRuntime) -> Result<(), Fail> {
    let mut frame = opened(rt.alloc())?;
    assert_eq!(rt; frame.woken(), 2);
    assert_eq!(rt; claim(&rt, &mut frame, 7, 1), 1);
    assert_eq!(rt; grow(&rt, &mut frame, 7, 40), EntryKind::Granted);
    assert_eq!(rt; grow(&rt, &mut frame, 7, 61), EntryKind::Refused);
    free(&rt, &mut frame, 7);
    assert!(rt; is_sent(send(&rt, &mut frame, 7, 50)));
    assert!(rt; is_held(send(&rt, &mut frame, 7, 60)));
    assert_eq!(rt; claim(&rt, &mut frame, 8, 0), 0);
    assert!(rt; batch_of(receive(&rt, &mut frame, 8)) == Some(50));
    assert!(rt; is_empty(receive(&rt, &mut frame, 8)));
    assert_eq!(rt; claim(&rt, &mut frame, 7, 0), 1);
    assert!(rt; is_sent(send(&rt, &mut frame, 7, 60)));
    finish(&rt, &mut frame, 7, 1);
    assert_eq!(rt; claim(&rt, &mut frame, 8, 0), 0);
    assert!(rt; batch_of(receive(&rt, &mut frame, 8)) == Some(60));
    assert!(rt; is_ended(receive(&rt, &mut frame, 8)));
    go_round(&rt, &mut frame, 8, 0);
    assert_eq!(rt; claim(&rt, &mut frame, 9, 0), 0);
    assert!(rt; !frame.is_finished());
    finish(&rt, &mut frame, 9, 0);
    assert!(rt; frame.is_finished());
    assert!(rt; frame.is_over());
    Ok(())
}

#[test]
fn nobody_receives_after_the_root_has_ended(rt: HostRuntime) -> Result<(), Fail> {
    let mut frame = opened(rt.alloc())?;
    assert_eq!(rt; claim(&rt, &mut frame, 7, 0), 0);
    finish(&rt, &mut frame, 7, 0);
    assert_eq!(rt; claim(&rt, &mut frame, 7, 0), 1);
    match send(&rt, &mut frame, 7, 50) {
        Sending::Dropped { batch, last } => {
            assert_eq!(rt; batch, 50);
            assert!(rt; last);
        }
        _ => panic!(rt; "the batch is not dropped"),
    }
    Ok(())
}

#[test]
fn a_claim_without_memory_ends_the_run(rt: HostRuntime) -> Result<(), Fail> {
    let mut frame = opened(rt.alloc())?;
    assert_eq!(rt; fail_to_claim(&rt, &mut frame, 7, 0), 0);
    assert!(rt; frame.is_over());
    assert!(rt; frame.failed() == Some(Cause::NoMemory));
    assert_eq!(rt; frame.woken(), 2);
    Ok(())
}

#[test]
fn a_fault_of_a_device_ends_the_run(rt: HostRuntime) -> Result<(), Fail> {
    let mut frame = opened(rt.alloc())?;
    assert_eq!(rt; claim(&rt, &mut frame, 7, 0), 0);
    owns(&rt, &frame, 7, 0);
    frame.fail(7, 0, Cause::Read);
    assert!(rt; frame.is_over());
    assert!(rt; frame.failed() == Some(Cause::Read));
    Ok(())
}
