//! Why there is no space.

/// Why an area isn't brought in or written out: core has not the words that are needed, fewer sectors are free than
/// are wanted, or the device failed.
#[derive(Clone, Copy, Debug, PartialEq, Eq)]
pub enum SpaceFault {
    NoCore { need: u32, core: u32 },
    BackingFull { wants: u32, free: u32 },
    BackingFault,
}
