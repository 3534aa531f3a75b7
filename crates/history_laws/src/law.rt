//! Laws of histories: what tasks' histories tell of a run.

ghost use Rattle.std.specs.Prelude.{◌≡◌, ℕ, Bool, List, map, Option, Some, option_map};
ghost use Rattle.run_journal.specs.declared.entry.Entry.{Entry};
ghost use Rattle.run_journal.specs.declared.entry.EntryKind.{EntryKind};
ghost use Rattle.task_shape.specs.Shape.{Shape, IsShape, HasOwners};
ghost use Rattle.core_frame.specs.Frame.{Frame, opening};
ghost use Rattle.core_frame.specs.Step.{Need, frame_replay};
ghost use Rattle.core_frame.specs.Good.{IsOwn, AreOwn};
ghost use Rattle.core_frame.specs.Carried.{map_frame, map_need, map_step};
ghost use Rattle.core_frame.specs.Sent.{Passes, SendFits, SendsFit};
ghost use Rattle.history_laws.specs.Histories.{Run, begun, reply_of, run_step, run_replay, frame_in};
ghost use Rattle.history_laws.specs.Contents.{IsTold};
ghost use Rattle.history_laws.specs.Reserved.{IsHeld};
ghost use Rattle.history_laws.specs.Recorded.{IsRecorded};
ghost use Rattle.history_laws.specs.Carried.{map_reply, map_run};
ghost use Rattle.history_laws.specs.Taken.{RunFits};

/// What histories tell of each run that steps reach from the opening, whatever the needs are, as long as each names only
/// the task's own channels and consumers.
///
/// What a channel's receiver took, and then what the channel holds, is an interleaving of what was sent there (`contents`).
/// Where each consumer is one task's, it holds what its task's history tells (`reserved`). The frames are those of the
/// steps without histories (`frames`).
pub fn histories_law<B>()
    ensures contents { (p : Shape) (limit : ℕ) (steps : List (Entry × Need B)) (r : Run B)
        → IsShape p → AreOwn p steps → run_replay p (Some (begun p limit)) steps ≡ Some r
        → IsTold p r.frame r.pasts }
    ensures reserved { (p : Shape) (limit : ℕ) (steps : List (Entry × Need B)) (r : Run B)
        → IsShape p → HasOwners p → AreOwn p steps → run_replay p (Some (begun p limit)) steps
        ≡ Some r → IsHeld p r.frame r.pasts }
    ensures frames { (p : Shape) (limit : ℕ) (steps : List (Entry × Need B))
        → frame_in (run_replay p (Some (begun p limit)) steps)
        ≡ frame_replay p (Some (opening p limit)) steps }
{}

/// At the opening of a plan's run the histories tell what channels hold.
pub fn recorded_opening<B>()
    ensures { (p : Shape) (limit : ℕ) → IsShape p → IsRecorded {B = B} p (begun p limit) }
{}

/// And after each step they do, whatever the need is, as long as it is the task's own.
pub fn recorded_step<B>()
    ensures { (p : Shape) (r new : Run B) (e : Entry) (need : Need B)
        → IsShape p → IsRecorded p r → IsOwn p e.task need → run_step p r e need ≡ Some new
        → IsRecorded p new }
{}

/// At the opening of a plan's run each consumer holds what its task's history tells.
pub fn held_opening<B>()
    ensures { (p : Shape) (limit : ℕ)
        → IsHeld {B = B} p (begun {B = B} p limit).frame (begun {B = B} p limit).pasts }
{}

/// And after each step it does, where each consumer is one task's.
pub fn held_step<B>()
    ensures { (p : Shape) (r new : Run B) (e : Entry) (need : Need B)
        → IsShape p → HasOwners p → IsRecorded p r → IsOwn p e.task need
        → run_step p r e need ≡ Some new
        → IsHeld p r.frame r.pasts → IsHeld p new.frame new.pasts }
{}

/// Steps of runs with histories commute with any map of batches, as those of frames do: the same entries, with their
/// needs' batches changed, lead from the changed run to the changed one, or lead nowhere alike. Each answers the same,
/// with the batch changed (`reply`).
pub fn carried_runs_law<A, B>()
    ensures begun { (m : A → B) (p : Shape) (limit : ℕ)
        → map_run m (begun p limit) ≡ begun p limit }
    ensures reply { (m : A → B) (p : Shape) (f : Frame A) (t : ℕ) (k : EntryKind) (need : Need A)
        → reply_of p (map_frame m f) t k (map_need m need)
        ≡ option_map (map_reply m) (reply_of p f t k need) }
    ensures step { (m : A → B) (p : Shape) (r : Run A) (e : Entry) (need : Need A)
        → run_step p (map_run m r) e (map_need m need)
        ≡ option_map (map_run m) (run_step p r e need) }
    ensures replay { (m : A → B) (p : Shape) (o : Option (Run A)) (steps : List (Entry × Need A))
        → run_replay p (option_map (map_run m) o) (map (map_step m) steps)
        ≡ option_map (map_run m) (run_replay p o steps) }
{}

/// What holds of each batch that is sent to a channel, by any test of batches for a group and a channel, holds of each
/// batch in it and of each that was taken of it: after one step (`step`), and in all that the start of a run leads to
/// (`runs`).
///
/// The lemmas `Rattle.history_laws.proofs.Taken.{run_step_fits, run_fits}` say it of any property, not only of tests.
pub fn taken_law<B>()
    ensures step { (test : ℕ → ℕ → B → Bool) (p : Shape) (r new : Run B) (e : Entry) (need : Need B)
        → RunFits (Passes test) r → SendFits p (Passes test) e.task need
        → run_step p r e need ≡ Some new
        → RunFits (Passes test) new }
    ensures runs { (test : ℕ → ℕ → B → Bool) (p : Shape) (limit : ℕ) (steps : List (Entry × Need B))
        (r : Run B)
        → SendsFit p (Passes test) steps → run_replay p (Some (begun p limit)) steps ≡ Some r
        → RunFits (Passes test) r }
{}
