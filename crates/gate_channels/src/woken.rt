//! The queue of tasks that were woken.

ghost use Rattle.std.specs.Prelude.{◌≡◌, ℕ, ◌<◌, ◌≤◌, [], ◌∷◌, ◌++◌, length, IfOk, IfSome, IfNone, slice_index, remove};
ghost use Rattle.std.specs.Option.{option_to_list};
ghost use Rattle.task_shape.specs.Numbers.{AreApart, count};

use dfx_value::NoMemory;
use std::alloc::Global;
use std::collections::VecDeque;
use std::marker::Model;

/// A queue of distinct task numbers, with room for each of its tasks from the start.
#[derive(Drop)]
pub struct Woken {
    queue: VecDeque<u32>,
    room: u32,
}

impl Model for Woken {
    ghost use Rattle.std.specs.Prelude.{◌≤◌};
    ghost use Rattle.std.specs.VecDeque.{deque_capacity};
    ghost use Rattle.task_shape.specs.Numbers.{IsDistinctBelow};
    ghost use Rattle.gate_channels.specs.Queue.{Ready};

    ghost Value = { Ready };

    ghost view = { λ w. record { tasks = w.queue.items; room = w.room } };

    ghost invariant = { λ w. IsDistinctBelow w.queue.items w.room
        × (w.room ≤ deque_capacity w.queue) };
}

impl Woken {
    /// An empty queue for the tasks below `tasks`.
    pub fn new(alloc: Global, tasks: u32) -> Result<Woken, NoMemory>
        ensures tasks { IfOk result (λ woken. woken.tasks ≡ []) }
        ensures room { IfOk result (λ woken. woken.room ≡ tasks) }
    {
        let queue = VecDeque::with_capacity(alloc, tasks as usize)?;
        Ok(Woken { queue, room: tasks })
    }

    /// Puts a task at the end. It takes no memory.
    pub fn push(&mut self, task: u32)
        requires below { task < self.old.room }
        requires fresh { count task self.old.tasks ≡ 0 }

        ensures tasks { self.new.tasks ≡ self.old.tasks ++ task ∷ [] }
        ensures room { self.new.room ≡ self.old.room }
    {
        self.queue.push_back_reserved(task);
    }

    /// Takes the task at a place, counted from 0. The others keep their order.
    ///
    /// At the front it takes the same time however many tasks there are.
    pub fn take(&mut self, at: u32) -> u32
        requires inside { at < length self.old.tasks }

        ensures task { result ≡ slice_index self.old.tasks at }
        ensures tasks { self.new.tasks ≡ remove self.old.tasks at }
        ensures room { self.new.room ≡ self.old.room }
    {
        match self.queue.remove(at as usize) {
            Some(task) => task,
            None => unreachable!(),
        }
    }

    /// The task at a place, counted from 0. It stays there.
    pub fn get(&self, at: u32) -> u32
        requires inside { at < length self.now.tasks }
        ensures task { result ≡ slice_index self.now.tasks at }
    {
        let _room = self.room;
        match self.queue.get(at as usize) {
            Some(task) => *task,
            None => unreachable!(),
        }
    }

    /// How many tasks there are.
    pub fn len(&self) -> u32
        ensures length { result ≡ length self.now.tasks }
    {
        let _room = self.room;
        self.queue.len() as u32
    }

    // Takes the task at the front.
    fn pop(&mut self) -> Option<u32>
        ensures tasks { self.old.tasks ≡ option_to_list result ++ self.new.tasks }
        ensures some { IfSome result
            (λ task. (task < self.old.room) × (count task self.new.tasks ≡ 0)) }
        ensures none { IfNone result (self.old.tasks ≡ []) }
        ensures room { self.new.room ≡ self.old.room }
    {
        self.queue.pop_front()
    }

    // Moves all tasks of the other queue to the end of this one.
    pub(crate) fn append(&mut self, other: &mut Woken)
        requires apart { AreApart other.old.tasks self.old.tasks }
        requires room { other.old.room ≤ self.old.room }

        ensures tasks { self.new.tasks ≡ self.old.tasks ++ other.old.tasks }
        ensures empty { other.new.tasks ≡ [] }
        ensures rooms { (self.new.room ≡ self.old.room) × (other.new.room ≡ other.old.room) }
    {
        while let Some(task) = other.pop() {
            self.push(task);
        }
    }
}
