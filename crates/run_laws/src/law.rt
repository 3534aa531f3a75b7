//! Laws of runs: what entries tell, and what those of others leave.

ghost use Rattle.std.specs.Prelude.{◌≡◌, ◌++◌, ◌≢◌, ◌↔◌, ℕ, true, false, List, [], ◌∷◌, map};
ghost use Rattle.std.specs.Prelude.{Some, None, is_some, option_map};
ghost use Rattle.run_journal.specs.declared.entry.Entry.{Entry};
ghost use Rattle.task_shape.specs.Shape.{Shape, IsShape};
ghost use Rattle.core_frame.specs.declared.place.Place.TheVariants.{OwnedBy};
ghost use Rattle.core_frame.specs.Frame.{Frame, place_of, owns, opening};
ghost use Rattle.core_frame.specs.Good.{IsOwn, AreOwn};
ghost use Rattle.core_frame.specs.Lawful.{IsLawful};
ghost use Rattle.core_frame.specs.Step.{Need, frame_step, frame_replay};
ghost use Rattle.core_frame.specs.Carried.{map_frame, map_need};
ghost use Rattle.history_laws.specs.Histories.{Run, past_of, reply_of, run_replay};
ghost use Rattle.history_laws.specs.Carried.{map_reply};
ghost use Rattle.logical_plan.specs.Items.{Cells};
ghost use Rattle.tree_laws.specs.Tasks.{Task, Wait};
ghost use Rattle.tree_laws.specs.Runs.{State, IsStart, IsReached, the_task, asks_nothing, state_step};
ghost use Rattle.tree_laws.specs.Settles.{Settles, Leads};
ghost use Rattle.turn_cell.specs.declared.act.Act.{Act};
ghost use Rattle.turn_cell.specs.declared.act.Act.TheVariants.{Made, Returned};
ghost use Rattle.turn_cell.specs.Acts.{entries_by, journal_of, Follows, JournalFollows};
ghost use Rattle.turn_cell.specs.Loans.{loan_of};
ghost use Rattle.run_laws.specs.Told.{answered, unanswered, task_after};
ghost use Rattle.run_laws.specs.Others.{entries_of, StillHas, StillTells, IsLeft};
ghost use Rattle.run_laws.specs.Loans.{AreLoans};
ghost use Rattle.run_laws.specs.Kept.{IsRun, IsToldRun, TaskIs};

/// An entry of a run over batches leads on from a told state whose frame is the run's with rows for batches. Where
/// the task of the entry came to the entry's need, it leads to the state where that task is answered what the run
/// answers, with rows for batches (`answered`). Where the entry asks nothing, whatever its need is, it leads to the
/// one with the same tasks and histories (`unanswered`).
pub fn told_law<B>()
    ensures answered { (rows : B → List Cells) (p : Shape) (size : ℕ) (s : State) (f new : Frame B)
        (e : Entry) (need : Need B) (w : Wait)
        → s.run.frame ≡ map_frame rows f → frame_step p f e need ≡ Some new
        → asks_nothing e.kind ≡ false
        → Settles size (the_task s.tasks e.task) w → w.need ≡ map_need rows need
        → Leads p size s (e ∷ []) (answered rows s e w new (reply_of p f e.task e.kind need)) }
    ensures unanswered { (rows : B → List Cells) (p : Shape) (size : ℕ) (s : State)
        (f new : Frame B)
        (e : Entry) (need : Need B)
        → s.run.frame ≡ map_frame rows f → frame_step p f e need ≡ Some new
        → asks_nothing e.kind ≡ true
        → Leads p size s (e ∷ []) (unanswered rows s new) }
{}

/// Steps of other workers leave a worker the task that it has: its place, whether it has made progress, and its
/// history. The frame has to be lawful at first.
pub fn others_law<B>()
    ensures frame { (p : Shape) (f new : Frame B) (steps : List (Entry × Need B)) (w t : ℕ)
        → IsLawful p f → place_of f t ≡ OwnedBy w → entries_by w (entries_of steps) ≡ []
        → frame_replay p (Some f) steps ≡ Some new → StillHas w t f new }
    ensures run { (p : Shape) (r new : Run B) (steps : List (Entry × Need B)) (w t : ℕ)
        → IsLawful p r.frame → place_of r.frame t ≡ OwnedBy w → entries_by w (entries_of steps) ≡ []
        → run_replay p (Some r) steps ≡ Some new → StillTells w t r new }
{}

/// An entry of one task leaves every other task and its history (`apart`). Entries of other workers leave a worker
/// the task that it has, with its place, its history, and what that leads to (`entries`); so also where a journal
/// that follows what the worker has seen leads on (`follows`).
pub fn owner_law()
    ensures apart { (p : Shape) (size steps : ℕ) (s new : State) (e : Entry) (t : ℕ)
        → e.task ≢ t → state_step p size steps s e ≡ Some new
        → (past_of new.run.pasts t ≡ past_of s.run.pasts t)
        × (the_task new.tasks t ≡ the_task s.tasks t) }
    ensures entries { (p : Shape) (size : ℕ) (s new : State) (entries : List Entry) (w t : ℕ)
        → IsLawful p s.run.frame → place_of s.run.frame t ≡ OwnedBy w → entries_by w entries ≡ []
        → Leads p size s entries new → IsLeft w t s new }
    ensures follows { (p : Shape) (size : ℕ) (start s new : State) (before after : List Entry)
        (w t : ℕ)
        → IsLawful p s.run.frame → place_of s.run.frame t ≡ OwnedBy w
        → Leads p size start before s → Leads p size start after new → JournalFollows w before after
        → IsLeft w t s new }
{}

/// A worker's loan by the acts is the task that it owns by place, but for a worker that has given up in a failed run:
/// its loan is none, and the place stays. So it is at the opening, after each step, and after each return of a task
/// to a run that has failed; so in all that the opening leads to (`replay`). While the run hasn't failed, both are
/// one (`going`), and a worker without a loan may claim (`free`). Two workers never have one task (`apart`).
pub fn loan_law<B>()
    ensures opening { (p : Shape) (limit : ℕ) → AreLoans {B = B} [] (opening p limit) }
    ensures step { (p : Shape) (f new : Frame B) (e : Entry) (need : Need B) (acts : List Act)
        → IsLawful p f → AreLoans acts f → frame_step p f e need ≡ Some new
        → AreLoans (acts ++ Made e ∷ []) new }
    ensures returned { (f : Frame B) (acts : List Act) (w t : ℕ)
        → AreLoans acts f → is_some f.failure ≡ true → AreLoans (acts ++ Returned w t ∷ []) f }
    ensures replay { (p : Shape) (limit : ℕ) (steps : List (Entry × Need B)) (f : Frame B)
        → IsShape p → AreOwn p steps → frame_replay p (Some (opening p limit)) steps ≡ Some f
        → AreLoans (map Made (entries_of steps)) f }
    ensures free { (f : Frame B) (acts : List Act) (w : ℕ)
        → AreLoans acts f → f.failure ≡ None → loan_of w acts ≡ None → owns w f.places ≡ false }
    ensures apart { (f : Frame B) (acts : List Act) (w v t : ℕ)
        → AreLoans acts f → loan_of w acts ≡ Some t → loan_of v acts ≡ Some t → w ≡ v }
    ensures going { (f : Frame B) (acts : List Act) (w t : ℕ)
        → AreLoans acts f → f.failure ≡ None → (loan_of w acts ≡ Some t)
        ↔ (place_of f t ≡ OwnedBy w) }
{}

/// A run of tasks, from its start. Each state that entries lead to is a reached one (`reached`), its frame is lawful
/// (`lawful`), and a loan by the entries is ownership by place (`loans`). Whatever others do, a worker keeps its
/// loan, and its task stays the same, with its place and history (`stays`): the acts that it has seen led to a state,
/// and what came since leaves the task that it has.
pub fn start_law()
    ensures reached { (p : Shape) (size limit : ℕ) (start s : State) (entries : List Entry)
        → IsShape p → IsStart p size limit start → Leads p size start entries s
        → IsReached p size limit start entries s }
    ensures lawful { (p : Shape) (size limit : ℕ) (start s : State) (entries : List Entry)
        → IsShape p → IsStart p size limit start → Leads p size start entries s
        → IsLawful p s.run.frame }
    ensures loans { (p : Shape) (size limit : ℕ) (start s : State) (entries : List Entry)
        → IsShape p → IsStart p size limit start → Leads p size start entries s
        → AreLoans (map Made entries) s.run.frame }
    ensures stays { (p : Shape) (size limit : ℕ) (start new : State) (before now : List Act)
        (w t : ℕ)
        → IsShape p → IsStart p size limit start
        → loan_of w before ≡ Some t → Follows w before now → Leads p size start (journal_of now) new
        → (s : State) × Leads p size start (journal_of before) s × IsLeft w t s new
        × (loan_of w now ≡ Some t) }
{}

/// What a run keeps, told or not, by each of its acts: at the opening (`begun`), where an entry is made by a need of
/// the task's own (`made`), and where a task is returned to a run that has failed (`returned`).
pub fn kept_law<B>()
    ensures begun { (p : Shape) (limit : ℕ) → IsShape p
        → IsRun {B = B} p limit [] (opening p limit) }
    ensures made { (p : Shape) (limit : ℕ) (acts : List Act) (f new : Frame B) (e : Entry)
        (need : Need B)
        → IsShape p → IsRun p limit acts f → IsOwn p e.task need → frame_step p f e need ≡ Some new
        → IsRun p limit (acts ++ Made e ∷ []) new }
    ensures returned { (p : Shape) (limit : ℕ) (acts : List Act) (f : Frame B) (w t : ℕ)
        → IsRun p limit acts f → is_some f.failure ≡ true
        → IsRun p limit (acts ++ Returned w t ∷ []) f }
{}

/// And what it keeps where it is told. An entry that asks nothing leaves every task (`unanswered`). One by the need
/// to which the task of its worker comes makes that task what it is after the reply (`answered`).
pub fn kept_told_law<B>()
    ensures begun { (rows : B → List Cells) (p : Shape) (size limit : ℕ) (start : State)
        → IsStart p size limit start → IsToldRun rows p size start [] (opening p limit) }
    ensures unanswered { (rows : B → List Cells) (p : Shape) (size : ℕ) (start : State)
        (acts : List Act)
        (f new : Frame B) (e : Entry) (need : Need B)
        → IsToldRun rows p size start acts f → frame_step p f e need ≡ Some new
        → asks_nothing e.kind ≡ true
        → IsToldRun rows p size start (acts ++ Made e ∷ []) new
        × ((t : ℕ) (k : Task) → TaskIs p size start acts t k
        → TaskIs p size start (acts ++ Made e ∷ []) t k) }
    ensures answered { (rows : B → List Cells) (p : Shape) (size limit : ℕ) (start : State)
        (acts : List Act)
        (f new : Frame B) (e : Entry) (need : Need B) (k : Task) (w : Wait)
        → IsShape p → IsStart p size limit start → IsToldRun rows p size start acts f
        → TaskIs p size start acts e.task k → Settles size k w → w.need ≡ map_need rows need
        → frame_step p f e need ≡ Some new → asks_nothing e.kind ≡ false
        → IsToldRun rows p size start (acts ++ Made e ∷ []) new
        × TaskIs p size start (acts ++ Made e ∷ []) e.task
        (task_after w (option_map (map_reply rows) (reply_of p f e.task e.kind need))) }
    ensures returned { (rows : B → List Cells) (p : Shape) (size : ℕ) (start : State)
        (acts : List Act)
        (f : Frame B) (w t : ℕ)
        → IsToldRun rows p size start acts f
        → IsToldRun rows p size start (acts ++ Returned w t ∷ []) f }
{}

/// The acts lead to one state at most, where a task is one (`one`), and at the start it is the start's (`begun`). It
/// is the same in the state that later acts lead to: after an entry of another task (`apart`), after a return
/// (`returned`), and whatever others do while its worker has it (`stays`).
pub fn job_law()
    ensures begun { (p : Shape) (size : ℕ) (start : State) (t : ℕ)
        → TaskIs p size start [] t (the_task start.tasks t) }
    ensures one { (p : Shape) (size : ℕ) (start : State) (acts : List Act) (t : ℕ) (k j : Task)
        → TaskIs p size start acts t k → TaskIs p size start acts t j → k ≡ j }
    ensures apart { (p : Shape) (size : ℕ) (start new : State) (acts : List Act) (e : Entry)
        (t : ℕ) (k : Task)
        → e.task ≢ t → TaskIs p size start acts t k
        → Leads p size start (journal_of (acts ++ Made e ∷ [])) new
        → TaskIs p size start (acts ++ Made e ∷ []) t k }
    ensures returned { (p : Shape) (size : ℕ) (start : State) (acts : List Act) (w u t : ℕ)
        (k : Task)
        → TaskIs p size start acts t k → TaskIs p size start (acts ++ Returned w u ∷ []) t k }
    ensures stays { (p : Shape) (size limit : ℕ) (start new : State) (before now : List Act)
        (w t : ℕ) (k : Task)
        → IsShape p → IsStart p size limit start
        → loan_of w before ≡ Some t → Follows w before now → TaskIs p size start before t k
        → Leads p size start (journal_of now) new → TaskIs p size start now t k }
{}
