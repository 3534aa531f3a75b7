//! What a run began with.

ghost use Rattle.run_core.specs.Given.{Given};

/// What a run began with. No code makes one.
pub trait Opens {
    // What the run was given, as contracts see it.
    ghost given: { Self → Given };
}
