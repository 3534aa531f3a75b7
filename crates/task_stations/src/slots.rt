//! Places where a batch may stand. A batch without rows stands for none.

ghost use Rattle.std.specs.Prelude.{◌≡◌, ◌==◌, ◌<◌, [], length, IfNone, IfSome};
ghost use Rattle.task_stations.specs.Slots.{rows_of};

use column_batch::Batch;

/// Whether no row stands there.
pub(crate) fn is_none(slot: &Option<Batch>) -> bool
    ensures { result ≡ (length (rows_of slot.now) == 0) }
{
    match slot {
        None => true,
        Some(batch) => batch.rows() == 0,
    }
}

/// Takes the batch that stands there, where it has rows.
pub(crate) fn take_rows(slot: &mut Option<Batch>) -> Option<Batch>
    ensures rows { IfSome result (λ batch. batch.rows ≡ rows_of slot.old) }
    ensures some { IfSome result (λ batch. 0 < length batch.rows) }
    ensures none { IfNone result (rows_of slot.old ≡ []) }
    ensures left { rows_of slot.new ≡ [] }
{
    let Some(batch) = slot.take() else {
        return None;
    };
    if batch.rows() == 0 {
        return None;
    }
    Some(batch)
}
