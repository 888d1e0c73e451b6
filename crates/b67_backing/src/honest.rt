//! Sectors in memory, none of whose calls fails.

ghost use Rattle.std.specs.Prelude.{◌≡◌, ◌≤◌, ◌<◌, ◌^◌, length, IfOk, Some};

use crate::Backing;
use crate::copies::zeros;
use b67_word::Failed;
use std::alloc::{AllocError, Global};

/// Sectors in memory. Their count of failures is the constant 0, so no call fails.
#[derive(Drop)]
pub struct HonestBacking {
    held: Vec<[u64; 30]>,
    calls: u64,
    ghost some: { 1 ≤ length held.items },
    ghost few: { length held.items < 2 ^ 20 },
}

impl HonestBacking {
    ghost use Rattle.b67_backing.specs.Memory.{honest_sectors};
    ghost use Rattle.b67_backing.specs.Held.{blank};

    /// Sectors of zeros.
    pub fn new(alloc: Global, sectors: u32) -> Result<HonestBacking, AllocError>
        requires low { 1 ≤ sectors }
        requires high { sectors < 2 ^ 20 }
        ensures zeros { IfOk result (λ b. honest_sectors b ≡ blank sectors) }
        ensures calls { IfOk result (λ b. b.calls ≡ 0) }
    {
        Ok(HonestBacking {
            held: zeros(alloc, sectors)?,
            calls: 0,
        })
    }
}

impl Backing for HonestBacking {
    ghost use Rattle.b67_backing.specs.Memory.{honest_sectors};

    ghost holds = { λ b. Some (honest_sectors b) };

    ghost size = { λ b. length (honest_sectors b) };

    ghost faults = { λ _. 0 };

    ghost calls = { λ b. b.calls };

    fn sectors(&self) -> u32 {
        self.held.len() as u32
    }

    fn read(&mut self, n: u32, into: &mut [u64; 30]) -> Result<(), Failed> {
        self.calls = self.calls.saturating_add(1);
        *into = self.held[n as usize - 1];
        Ok(())
    }

    fn write(&mut self, n: u32, from: &[u64; 30]) -> Result<(), Failed> {
        self.calls = self.calls.saturating_add(1);
        self.held[n as usize - 1] = *from;
        Ok(())
    }
}
