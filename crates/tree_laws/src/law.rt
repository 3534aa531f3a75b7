//! Laws of operator trees: a tree agrees with its task's history.

ghost use Rattle.std.specs.Prelude.{◌≡◌, ◌≤◌, ◌<◌, ◌++◌, ℕ, Bool, true, Option, Some, None, is_some, List};
ghost use Rattle.run_journal.specs.declared.entry.Entry.{Entry};
ghost use Rattle.run_journal.specs.declared.entry.EntryKind.TheVariants.{Wrote};
ghost use Rattle.fair_pool.specs.Share.{held_by};
ghost use Rattle.task_shape.specs.Shape.{Shape, IsShape, HasOwners};
ghost use Rattle.core_frame.specs.Frame.{place_of, unfinished};
ghost use Rattle.core_frame.specs.Step.{Send, Writes};
ghost use Rattle.history_laws.specs.Histories.{Past, past_of};
ghost use Rattle.logical_plan.specs.Items.{Cells, Item};
ghost use Rattle.tree_laws.specs.Operators.{Told, IsOp};
ghost use Rattle.tree_laws.specs.OperatorKinds.{each_op, end_op, segment_op, limit_op, join_op, merge_op};
ghost use Rattle.tree_laws.specs.Trees.{Tree, Gives, poll, IsSubtree};
ghost use Rattle.tree_laws.specs.Linked.{IsLinked, Keeps, IsFlow, IsWhole};
ghost use Rattle.tree_laws.specs.Tasks.{Task, Wait, Goes, Waits, turn, settle, handled, IsTask, IsWait};
ghost use Rattle.tree_laws.specs.Runs.{State, the_task, state_step, state_replay, IsStart, IsReached};
ghost use Rattle.tree_laws.specs.Settles.{Settles, Leads};
ghost use Rattle.tree_laws.specs.Batches.{HasRows, AllHaveRows, IsFilled, AreFilled};
ghost use Rattle.tree_laws.specs.Held.{IsApart, IsHolding, FreesAll, kept_in, KeepsHeld, WaitHolds};
ghost use Rattle.tree_laws.specs.Exits.{HeadsOwn, is_of_send};

/// A tree agrees with its task's history, whatever it is answered, for operators of every kind that owes what
/// `IsOp` says.
///
/// Each poll keeps it (`polled`). What a tree gave is a front of what it would give of whole channels, and all of
/// it where it ends (`whole`). Both are so of each tree in it (`linked`, `fronts`).
pub fn tree_law()
    ensures polled { (size : ℕ) (past : Past (List Cells)) (t : Tree) → IsLinked size past t
        → Keeps size past t (poll size t) }
    ensures whole { (size : ℕ) (past : Past (List Cells)) (full : ℕ → ℕ → List Item) (t : Tree)
        → IsLinked size past t → IsFlow past full t → IsWhole size full t }
    ensures linked { (size : ℕ) (past : Past (List Cells)) (t x : Tree)
        → IsLinked size past t → IsSubtree x t → IsLinked size past x }
    ensures fronts { (size : ℕ) (past : Past (List Cells)) (full : ℕ → ℕ → List Item) (t x : Tree)
        → IsLinked size past t → IsFlow past full t → IsSubtree x t → IsWhole size full x }
{}

/// A task agrees with its history, whatever its needs are answered: what it gave was written, or cut into parts that were
/// handled or wait; and its need tells which channel it reads, which part it sends, and that it finishes only at its end or where nobody
/// takes more of it.
pub fn task_law()
    ensures { (size steps : ℕ) (past : Past (List Cells)) (k : Task) (w : Wait)
        → IsTask size past k → settle size steps k ≡ Some w → IsWait size past k w }
{}

/// In each state that entries reach from the start of a run of tasks, every entry stands by the one next need of its task, which
/// names only the task's own channels and consumers; so all that is said of runs with histories holds of it. Each task agrees with
/// its history, and is built as at the start. A task that finished has ended, or nobody took more of it; where a channel's end was
/// told, its senders have ended; and what was sent to a channel is a front of the parts for it.
pub fn run_law()
    ensures { (p : Shape) (size steps limit : ℕ) (start s : State) (entries : List Entry)
        → IsShape p → IsStart p size limit start → state_replay p size steps (Some start) entries
        ≡ Some s
        → IsReached p size limit start entries s }
{}

/// These kinds of operators owe what an operator has to, whatever they do to items: each item by itself (filters, projections), all
/// items after their end (sorts, answers of groups), each segment (the first phase of groups), a limit, a hash join of any kind, and a
/// merge of any number of inputs by any order.
pub fn kinds_law()
    ensures each { (f : Item → List Item) → IsOp (each_op f) }
    ensures end { (f : List Item → List Item) (amount : Told → List Cells → ℕ) (consumer : Option ℕ)
        → IsOp (end_op f amount consumer) }
    ensures segment { (f : List Item → List Item) (amount : Told → List Cells → ℕ)
        (consumer : Option ℕ)
        → IsOp (segment_op f amount consumer) }
    ensures limit { (skip : ℕ) (fetch : Option ℕ) → IsOp (limit_op skip fetch) }
    ensures join { (probe : List Item → Item → List Item) (last : List Item → List Item
        → List Item) (amount : Told → List Cells → ℕ) (consumer : Option ℕ)
        → IsOp (join_op probe last amount consumer) }
    ensures merge { (before : Item → Item → Bool) (n : ℕ) → IsOp (merge_op before n) }
{}

/// A task that comes to a need within some number of steps comes to the same within more (`more`); so at most to one,
/// whatever the number (`one`). It comes there step by step (`goes`, `here`). And the task that waits there has come to it
/// (`waits`, `again`).
pub fn settle_law()
    ensures more { (size n l : ℕ) (k : Task) (w : Wait)
        → n ≤ l → settle size n k ≡ Some w → settle size l k ≡ Some w }
    ensures one { (size : ℕ) (k : Task) (w v : Wait) → Settles size k w → Settles size k v → w ≡ v }
    ensures goes { (size : ℕ) (k rest : Task) (w : Wait)
        → turn size k ≡ Goes rest → Settles size rest w → Settles size k w }
    ensures here { (size : ℕ) (w : Wait) → turn size w.now ≡ Waits w.need w.after
        → Settles size w.now w }
    ensures waits { (size : ℕ) (k : Task) (w : Wait) → Settles size k w
        → turn size w.now ≡ Waits w.need w.after }
    ensures again { (size : ℕ) (k : Task) (w : Wait) → Settles size k w
        → settle size 1 w.now ≡ Some w }
{}

/// Entries that lead to a state lead to the same within more steps (`more`); so to at most one, whatever the number
/// (`one`). They go on from there (`on`), and each front of them leads to a state (`front`).
pub fn leads_law()
    ensures more { (p : Shape) (size n l : ℕ) (start s : State) (entries : List Entry)
        → n ≤ l → state_replay p size n (Some start) entries ≡ Some s
        → state_replay p size l (Some start) entries ≡ Some s }
    ensures one { (p : Shape) (size : ℕ) (start s new : State) (entries : List Entry)
        → Leads p size start entries s → Leads p size start entries new → s ≡ new }
    ensures on { (p : Shape) (size : ℕ) (start s new : State) (entries more : List Entry)
        → Leads p size start entries s → Leads p size s more new
        → Leads p size start (entries ++ more) new }
    ensures front { (p : Shape) (size : ℕ) (start new : State) (entries more : List Entry)
        → Leads p size start (entries ++ more) new
        → (s : State) × Leads p size start entries s × Leads p size s more new }
{}

/// Where a batch may have a row, no batch that a tree gives is empty (`given`). So where tasks cut batches that
/// have rows into parts that do, no part is empty that a task sends, in each state that entries reach from such a
/// start (`sent`).
pub fn batches_law()
    ensures given { (size : ℕ) (t : Tree) (rows : List Cells) (rest : Tree)
        → 0 < size → poll size t ≡ Gives rows rest → HasRows rows }
    ensures sent { (p : Shape) (size steps limit : ℕ) (start s : State) (entries : List Entry)
        → IsShape p → IsStart p size limit start → 0 < size → AreFilled start.tasks
        → state_replay p size steps (Some start) entries ≡ Some s
        → (t : ℕ) → AllHaveRows (handled (past_of s.run.pasts t)) × IsFilled (the_task s.tasks t) }
{}

/// What operators hold is what is held under their consumers, where the operators of a tree have different ones.
///
/// Each poll of a tree keeps that they hold what the history says (`polled`), and so does each need of a task
/// (`settled`): what it gives back is all that is held. So they do in each state that entries reach from a start
/// where nothing is held (`reached`). Where each consumer is one task's, that is what the pool holds for them until
/// their task has finished (`pooled`), and a need to give back names just that (`freed`).
pub fn held_law()
    ensures polled { (size : ℕ) (past : Past (List Cells)) (t : Tree)
        → IsLinked size past t → IsApart t → IsHolding (kept_in past) t
        → KeepsHeld past (poll size t) }
    ensures settled { (size steps : ℕ) (past : Past (List Cells)) (k : Task) (w : Wait)
        → IsTask size past k → IsApart k.tree → IsHolding (kept_in past) k.tree
        → settle size steps k ≡ Some w → WaitHolds past w }
    ensures reached { (p : Shape) (size steps limit : ℕ) (start s : State) (entries : List Entry)
        → IsShape p → IsStart p size limit start
        → ((t : ℕ) → IsApart (the_task start.tasks t).tree
        × IsHolding (λ c. 0) (the_task start.tasks t).tree)
        → state_replay p size steps (Some start) entries ≡ Some s
        → (t : ℕ) → IsHolding (kept_in (past_of s.run.pasts t)) (the_task s.tasks t).tree }
    ensures pooled { (p : Shape) (size steps limit : ℕ) (start s : State) (entries : List Entry)
        → IsShape p → HasOwners p → IsStart p size limit start
        → ((t : ℕ) → IsApart (the_task start.tasks t).tree
        × IsHolding (λ c. 0) (the_task start.tasks t).tree)
        → state_replay p size steps (Some start) entries ≡ Some s
        → (t : ℕ) → unfinished (place_of s.run.frame t) ≡ true
        → IsHolding (held_by s.run.frame.pool) (the_task s.tasks t).tree }
    ensures freed { (p : Shape) (size steps limit : ℕ) (start s : State) (entries : List Entry)
        → IsShape p → HasOwners p → IsStart p size limit start
        → ((t : ℕ) → IsApart (the_task start.tasks t).tree
        × IsHolding (λ c. 0) (the_task start.tasks t).tree)
        → state_replay p size steps (Some start) entries ≡ Some s
        → (t turns : ℕ) (w : Wait) → unfinished (place_of s.run.frame t) ≡ true
        → settle size turns (the_task s.tasks t) ≡ Some w
        → FreesAll (held_by s.run.frame.pool) w.need }
{}

/// How a task's output leaves it. A need to send comes only of a task with a split (`sends`), and one to write only
/// of a task without one, where no task with a split has a header to write (`writes`). So it is with the entries of
/// a run: those of a need to send are of tasks with a split (`sent`), and those of writes of tasks without one
/// (`wrote`).
pub fn exits_law()
    ensures sends { (size steps : ℕ) (past : Past (List Cells)) (k : Task) (w : Wait) (c : ℕ)
        (b : List Cells)
        → IsTask size past k → settle size steps k ≡ Some w → w.need ≡ Send c b
        → is_some k.split ≡ true }
    ensures writes { (size steps : ℕ) (past : Past (List Cells)) (k : Task) (w : Wait)
        → IsTask size past k → HeadsOwn k → settle size steps k ≡ Some w → w.need ≡ Writes
        → k.split ≡ None }
    ensures sent { (p : Shape) (size steps limit : ℕ) (start s next : State) (entries : List Entry)
        (e : Entry)
        → IsShape p → IsStart p size limit start
        → state_replay p size steps (Some start) entries ≡ Some s
        → state_step p size steps s e ≡ Some next
        → is_of_send e.kind ≡ true → is_some (the_task start.tasks e.task).split ≡ true }
    ensures wrote { (p : Shape) (size steps limit : ℕ) (start s next : State) (entries : List Entry)
        (e : Entry)
        → IsShape p → IsStart p size limit start → ((t : ℕ) → HeadsOwn (the_task start.tasks t))
        → state_replay p size steps (Some start) entries ≡ Some s
        → state_step p size steps s e ≡ Some next
        → e.kind ≡ Wrote → (the_task start.tasks e.task).split ≡ None }
{}
