//! When the fault INVALID OPERATOR occurs.

ghost use Rattle.b67_law.specs.Faults.{InvalidOperatorIsNvld};

/// The row of an operator faults INVALID OPERATOR only at NVLD, or at an MPCW whose literal the
/// loader refuses.
pub fn invalid_operator_is_nvld()
    ensures { InvalidOperatorIsNvld }
{}
