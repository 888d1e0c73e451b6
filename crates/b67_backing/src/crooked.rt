//! A device that gives one number at every place.

ghost use Rattle.std.specs.Prelude.{◌≡◌, ◌≤◌, ◌<◌, ◌^◌, ◌∷◌, [], Ok, Some, OnOk, OnErr, replicate};
ghost use Rattle.b67_io.specs.Causes.{HasCause};
ghost use Rattle.b67_backing.specs.Held.{Tells, Becomes, Changes, Counts, SameBut, Sets, sector};

use crate::Backing;
use b67_word::Failed;

/// A device that keeps nothing: every read gives one number at all 30 places. It tells no sectors. Its count of failures
/// is the constant 0, so no call fails.
#[derive(Drop)]
pub struct CrookedBacking {
    sectors: u32,
    gives: u64,
    calls: u64,
    ghost some: { 1 ≤ sectors },
    ghost few: { sectors < 2 ^ 20 },
}

impl CrookedBacking {
    ghost use Rattle.b67_backing.specs.Crooked.{crooked_size, crooked_number, crooked_calls};

    /// So many sectors, which all give one number.
    pub fn new(sectors: u32, gives: u64) -> CrookedBacking
        requires low { 1 ≤ sectors }
        requires high { sectors < 2 ^ 20 }
        ensures size { crooked_size result ≡ sectors }
        ensures gives { crooked_number result ≡ gives }
        ensures calls { crooked_calls result ≡ 0 }
    {
        CrookedBacking {
            sectors,
            gives,
            calls: 0,
        }
    }
}

impl Backing for CrookedBacking {
    ghost use Rattle.b67_backing.specs.Crooked.{crooked_told, crooked_size, crooked_faults, crooked_calls, crooked_number};

    ghost holds = { crooked_told };

    ghost size = { crooked_size };

    ghost faults = { crooked_faults };

    ghost calls = { crooked_calls };

    fn sectors(&self) -> u32 {
        self.sectors
    }

    fn read(&mut self, n: u32, into: &mut [u64; 30]) -> Result<(), Failed>
        requires low { 1 ≤ n }
        requires high { n ≤ crooked_size self.old }
        ensures fills { into.new ≡ replicate 30 (crooked_number self.old) }
        ensures number { crooked_number self.new ≡ crooked_number self.old }
        ensures gives { OnOk result (Tells crooked_told self.old (λ all. sector all n ≡ Some into.new)) }
        ensures same { Becomes crooked_told self.old self.new (λ all. all) }
        ensures size { crooked_size self.new ≡ crooked_size self.old }
        ensures calls { Counts crooked_calls self.old self.new }
        ensures calm { OnOk result (crooked_faults self.new ≡ crooked_faults self.old) }
        ensures cause { HasCause crooked_faults self.old self.new result }
    {
        self.calls = self.calls.saturating_add(1);
        *into = [self.gives; 30];
        Ok(())
    }

    fn write(&mut self, n: u32, from: &[u64; 30]) -> Result<(), Failed>
        requires low { 1 ≤ n }
        requires high { n ≤ crooked_size self.old }
        ensures number { crooked_number self.new ≡ crooked_number self.old }
        ensures sets { OnOk result (Changes crooked_told self.old self.new (Sets n from.now)) }
        ensures leaves { OnErr result (Changes crooked_told self.old self.new (SameBut (n ∷ []))) }
        ensures size { crooked_size self.new ≡ crooked_size self.old }
        ensures calls { Counts crooked_calls self.old self.new }
        ensures calm { OnOk result (crooked_faults self.new ≡ crooked_faults self.old) }
        ensures cause { HasCause crooked_faults self.old self.new result }
    {
        self.calls = self.calls.saturating_add(1);
        Ok(())
    }
}
