//! The registers of the processor.

use b67_word::Place;

/// The slot in registers that are no task's.
pub const NO_SLOT: u8 = 255;

/// The registers. `s`: the core address of the top word. `f`: that of the last mark. `bosr` and `losr`: the first and
/// the last core word of the running stack. `slot`: its number, [`NO_SLOT`] if the registers are no task's. `level`, `segment`, `place`: the running level, the
/// running segment's displacement in the dictionary, and the next operator's place in it. `dict` and `entries`: the
/// core address of the job's segment dictionary and the number of its entries. `stacks`: the core address of the first
/// slot's stack, and `stack_size` the words of each. `peak`: the greatest number of tasks alive at one moment so far.
#[derive(Clone, Copy, Debug, PartialEq, Eq)]
pub struct Regs {
    pub s: u32,
    pub f: u32,
    pub bosr: u32,
    pub losr: u32,
    pub slot: u8,
    pub level: u8,
    pub segment: u16,
    pub place: Place,
    pub dict: u32,
    pub entries: u16,
    pub stacks: u32,
    pub stack_size: u16,
    pub peak: u8,
}
