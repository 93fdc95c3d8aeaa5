//! What holds over any list of calls of a flow.
ghost use Rattle.relay_core.specs.Law.{RunCarries};

/// Any list of calls, of fills, drains, passes and bursts in any order, does together what one call does:
/// what was held at first, followed by all that was read, is all that was written, followed by what is
/// held at the end.
pub fn run_carries()
    ensures { RunCarries }
{}
