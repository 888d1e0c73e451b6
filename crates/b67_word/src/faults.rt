//! What an operator, a task and a device may fail with.

/// Why an operator isn't made.
#[derive(Clone, Copy, Debug, PartialEq, Eq)]
pub enum Fault {
    StackUnderflow,
    StackOverflow,
    InvalidOperand,
    InvalidIndex,
    MemoryProtect,
    InvalidAddress,
    IntegerOverflow,
    DivideByZero,
    Exponent,
    Loop,
    Uplevel,
    CriticalBlock,
    InvalidOperator,
    MarkPending,
}

/// How a task ends: it left its outermost activation, its parent ended, its job was deadlocked, its job reached its
/// limit of operators, or it faulted.
#[derive(Clone, Copy, Debug, PartialEq, Eq)]
pub enum Ending {
    Ended,
    Parent,
    Deadlock,
    Limit,
    Faulted(Fault),
}

impl Default for Ending {
    fn default() -> Ending {
        Ending::Ended
    }
}

/// A device did not do what it was asked for.
#[derive(Clone, Copy, Debug, PartialEq, Eq)]
pub struct Failed;
