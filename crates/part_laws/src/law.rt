//! Laws of partitions: grouping, joining and sorting them is as on the whole.

ghost use Rattle.std.specs.Prelude.{Bool, ℕ, List};
ghost use Rattle.physical_plan.specs.declared.plan.Plan.{Plan};
ghost use Rattle.physical_plan.specs.declared.plan.Plan.TheOpen.{Plan-F as Node};
ghost use Rattle.logical_plan.specs.Items.{Cells};
ghost use Rattle.logical_plan.specs.Body.{Tables};
ghost use Rattle.plan_task_laws.specs.Trees.{Doing};
ghost use Rattle.plan_task_laws.specs.Reading.{AreOperators};
ghost use Rattle.answer_laws.specs.Answering.{IsAnswering};
ghost use Rattle.answer_laws.specs.Ordered.{IsOrdering};
ghost use Rattle.answer_laws.specs.Parted.{LawsOfParts};
ghost use Rattle.part_laws.specs.Phased.{the_phases};
ghost use Rattle.part_laws.specs.Made.{Amount, IsMade};
ghost use Rattle.part_laws.specs.Doing.{the_doing};

/// Over partitions in which rows with the same keys lie together, the second phase gives together the same rows,
/// each as often, and as many faults as grouping means of items that the segments of the first phase are alike to; joins of
/// partitions give together those of the join; and DISTINCT is grouping by all columns (`lists`).
///
/// Operators of the kinds that tree_laws has, with these phases, joins, sorts and merges, owe what answers ask of them
/// (`answering`); and there are such, for all nodes of all plans (`doing`).
pub fn parts_law()
    ensures lists { LawsOfParts the_phases }
    ensures doing { (tables : Tables) (amount : Node Plan → Amount) (channel : List ℕ → ℕ → Cells
        → ℕ)
        → ((spread : Node Plan → Bool) → IsMade (the_doing tables amount channel) tables spread)
        × AreOperators (the_doing tables amount channel) }
    ensures answering { (f : Doing) (tables : Tables) (spread : Node Plan → Bool)
        → IsMade f tables spread
        → IsAnswering f tables spread the_phases × IsOrdering f }
{}
