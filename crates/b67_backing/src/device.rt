//! Devices of sectors of 30 numbers.

ghost use Rattle.std.specs.Prelude.{◌≡◌, ◌≤◌, ◌<◌, ◌^◌, ℕ, List, [], ◌∷◌, Option, Some, OnOk, OnErr};
ghost use Rattle.b67_io.specs.Causes.{HasCause};
ghost use Rattle.b67_backing.specs.Device.{Tells, Becomes, Changes, Counts, SameBut, Sets, sector};

use b67_word::Failed;

/// A device of sectors of 30 numbers, numbered from 1. The number of a word is tag × 2^48 + bits.
pub trait Backing {
    /// The sectors, if it tells them.
    ghost holds: { Self → Option (List (List ℕ)) };

    /// How many sectors it has.
    ghost size: { Self → ℕ };

    /// How often it has failed.
    ghost faults: { Self → ℕ };

    /// How many reads and writes were made.
    ghost calls: { Self → ℕ };

    /// How many sectors it has, 1 to 1,048,575.
    fn sectors(&self) -> u32
        ensures value { result ≡ size self.now }
        ensures low { 1 ≤ result }
        ensures high { result < 2 ^ 20 };

    /// Reads sector n. No sector is changed.
    fn read(&mut self, n: u32, into: &mut [u64; 30]) -> Result<(), Failed>
        requires low { 1 ≤ n }
        requires high { n ≤ size self.old }
        ensures gives { OnOk result (Tells holds self.old (λ all. sector all n ≡ Some into.new)) }
        ensures same { Becomes holds self.old self.new (λ all. all) }
        ensures size { size self.new ≡ size self.old }
        ensures calls { Counts calls self.old self.new }
        ensures calm { OnOk result (faults self.new ≡ faults self.old) }
        ensures cause { HasCause faults self.old self.new result };

    /// Writes sector n, and no other. A failed write leaves open what that sector holds.
    fn write(&mut self, n: u32, from: &[u64; 30]) -> Result<(), Failed>
        requires low { 1 ≤ n }
        requires high { n ≤ size self.old }
        ensures sets { OnOk result (Changes holds self.old self.new (Sets n from.now)) }
        ensures leaves { OnErr result (Changes holds self.old self.new (SameBut (n ∷ []))) }
        ensures size { size self.new ≡ size self.old }
        ensures calls { Counts calls self.old self.new }
        ensures calm { OnOk result (faults self.new ≡ faults self.old) }
        ensures cause { HasCause faults self.old self.new result };
}
