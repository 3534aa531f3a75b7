//! The input that an operator asks.

ghost use Rattle.std.specs.Prelude.{◌≡◌, Some, None, if◌then◌else◌};
ghost use Rattle.tree_laws.specs.OperatorKinds.{is_empty};

use operator_poll::Queue;

/// Its one input, where no item waits and more can come.
pub(crate) fn asked(waiting: &Queue, complete: bool) -> Option<u32>
    ensures { result
        ≡ (if is_empty waiting.now.items then (if complete then None else Some 0) else None) }
{
    if waiting.is_empty() {
        if complete { None } else { Some(0) }
    } else {
        None
    }
}
