//! Every state of a run is in order.

ghost use Rattle.b67_law.specs.Runs.{RunsStayInOrder};

/// Every state of the run of an admitted deck is in order.
pub fn runs_stay_in_order()
    ensures { RunsStayInOrder }
{}
