//! How core, registers and display represent a session's state: placement, dictionaries, registers, display and tables; a
//! machine with its areas, sectors and device as the storage of a view; records that are marked, entered and left. Definitions
//! and lemmas, and one law: `children_can_run` says that a machine of a parent and a child can be represented.
//!
//! For all operators: the definitions `RepresentsSession`, `RunsSome`, `ForEach` and `Meets`, in which their contracts are
//! stated. For paging and all over the whole machine: `MachineRepresentsView`, and what calls of a device leave of it,
//! `DeviceAfterCalls`. For `b67_entry`: the lemmas of `proofs/Enters` and `proofs/Leaves`.
//!
//! Begin with the definition `RepresentsSession` (`specs/Session`), then `MachineRepresentsView` (`specs/Machine`).
#![tactic(auto)]

mod families;

pub use families::children_can_run;
