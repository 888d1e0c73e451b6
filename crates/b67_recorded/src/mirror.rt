//! A device, and a copy of what its sectors hold.

ghost use Rattle.std.specs.Prelude.{◌≡◌, ◌≤◌, length, ◌↔◌, [], ◌∷◌, Some, IsTrue, IfOk, IfErr, OnOk, OnErr, Bool, false, vec_capacity};
ghost use Rattle.b67_io.specs.Causes.{HasCause, Rose};
ghost use Rattle.b67_backing.specs.Device.{Tells, Becomes, Changes, Counts};
ghost use Rattle.b67_backing.specs.Held.{SameBut, Sets, sector};
ghost use Rattle.b67_recorded.specs.Mirror.{mirrored, IsMirrorOf};

use b67_backing::Backing;
use b67_word::Failed;

/// What a sector holds that was never written.
const BLANK: [u64; 30] = [0; 30];

/// A device of sectors, and a copy of them in memory, up to the last one that was written: those behind it are taken to hold zeros. A read that gives
/// anything else than the copy has is a failure, and is counted. So it tells what its sectors hold, whatever the device gives back.
#[derive(Drop)]
pub struct Mirrored<B: Backing + Drop> {
    inner: B,
    held: Vec<[u64; 30]>,
    calls: u64,
    faults: u64,
    ghost within: { length held.items ≤ B.size inner },
}

impl<B: Backing + Drop> Mirrored<B> {
    /// Over a device whose sectors aren't read before they are written. The room is for the copy, and what it holds is dropped.
    pub fn over(inner: B, room: Vec<[u64; 30]>) -> Self
        ensures over { (copies : Bool) → copies ≡ false → IsMirrorOf B.holds B.size copies inner result.inner result.held.items }
        ensures room { vec_capacity room ≤ vec_capacity result.held }
        ensures calls { result.calls ≡ 0 }
        ensures faults { result.faults ≡ 0 }
    {
        let mut held = room;
        held.clear();
        Mirrored {
            inner,
            held,
            calls: 0,
            faults: 0,
        }
    }

    /// Over a device whose sectors are read before they are written: all of them are copied. If one isn't read, or there is no room
    /// for it, the device is given back.
    pub fn copied(inner: B, room: Vec<[u64; 30]>) -> Result<Self, B>
        ensures over { IfOk result (λ m. (copies : Bool) → IsMirrorOf B.holds B.size copies inner m.inner m.held.items) }
        ensures room { IfOk result (λ m. vec_capacity room ≤ vec_capacity m.held) }
        ensures calls { IfOk result (λ m. m.calls ≡ 0) }
        ensures faults { IfOk result (λ m. m.faults ≡ 0) }
        ensures fair { B.size inner ≤ vec_capacity room → IfErr result (λ left. Rose B.faults inner left) }
    {
        let mut inner = inner;
        let mut held = room;
        held.clear();
        let mut sector = BLANK;
        'copy: for k in 0..inner.sectors() {
            match inner.read(k + 1, &mut sector) {
                Ok(()) => match held.push(sector) {
                    Ok(()) => {}
                    Err(_) => return Err(inner),
                },
                Err(_) => return Err(inner),
            }
        }
        Ok(Mirrored {
            inner,
            held,
            calls: 0,
            faults: 0,
        })
    }

    /// The device.
    pub fn into_inner(self) -> B
        ensures { result ≡ self.inner }
    {
        let Mirrored {
            inner,
            held: _,
            calls: _,
            faults: _,
        } = self;
        inner
    }

    /// Whether sector n holds these numbers.
    fn is_known(&self, n: u32, numbers: &[u64; 30]) -> bool
        requires low { 1 ≤ n }
        requires high { n ≤ B.size self.now.inner }
        ensures { IsTrue result ↔ (sector (mirrored (B.size self.now.inner) self.now.held.items) n ≡ Some numbers.now) }
    {
        if n as usize <= self.held.len() {
            return self.held[n as usize - 1] == *numbers;
        }
        *numbers == BLANK
    }

    /// Changes the copy of sector n, and says whether there was memory for it. Inlined, it would take the numbers through registers that the write wants.
    #[inline(never)]
    fn keep(&mut self, n: u32, from: &[u64; 30]) -> bool
        requires low { 1 ≤ n }
        requires high { n ≤ B.size self.old.inner }
        ensures sets { IsTrue result → Sets n from.now (mirrored (B.size self.old.inner) self.old.held.items) (mirrored (B.size self.new.inner) self.new.held.items) }
        ensures others { SameBut (n ∷ []) (mirrored (B.size self.old.inner) self.old.held.items) (mirrored (B.size self.new.inner) self.new.held.items) }
        ensures device { self.new.inner ≡ self.old.inner }
        ensures counts { (self.new.calls ≡ self.old.calls) × (self.new.faults ≡ self.old.faults) }
        ensures room { n ≤ vec_capacity self.old.held → IsTrue result }
    {
        if n as usize > self.held.len() && self.held.resize(n as usize, BLANK).is_err() {
            return false;
        }
        self.held[n as usize - 1] = *from;
        true
    }
}

impl<B: Backing + Drop> Backing for Mirrored<B> {
    ghost holds = { λ m. Some (mirrored (B.size m.inner) m.held.items) };

    ghost size = { λ m. B.size m.inner };

    ghost faults = { λ m. m.faults };

    ghost calls = { λ m. m.calls };

    fn sectors(&self) -> u32 {
        self.inner.sectors()
    }

    fn read(&mut self, n: u32, into: &mut [u64; 30]) -> Result<(), Failed>
        requires low { 1 ≤ n }
        requires high { n ≤ B.size self.old.inner }
        ensures gives { OnOk result (Tells (λ m. Some (mirrored (B.size m.inner) m.held.items)) self.old (λ all. sector all n ≡ Some into.new)) }
        ensures same { Becomes (λ m. Some (mirrored (B.size m.inner) m.held.items)) self.old self.new (λ all. all) }
        ensures size { B.size self.new.inner ≡ B.size self.old.inner }
        ensures calls { Counts (λ m. m.calls) self.old self.new }
        ensures calm { OnOk result (self.new.faults ≡ self.old.faults) }
        ensures cause { HasCause (λ m. m.faults) self.old self.new result }
        ensures asked { OnOk result (Tells B.holds self.old.inner (λ all. sector all n ≡ Some into.new)) }
        ensures fair { B.holds self.old.inner ≡ Some (mirrored (B.size self.old.inner) self.old.held.items) → OnErr result (Rose B.faults self.old.inner self.new.inner) }
    {
        self.calls = self.calls.saturating_add(1);
        if self.inner.read(n, into).is_ok() {
            if self.is_known(n, into) {
                return Ok(());
            }
            self.faults = self.faults.saturating_add(1);
            return Err(Failed);
        }
        self.faults = self.faults.saturating_add(1);
        Err(Failed)
    }

    fn write(&mut self, n: u32, from: &[u64; 30]) -> Result<(), Failed>
        requires low { 1 ≤ n }
        requires high { n ≤ B.size self.old.inner }
        ensures sets { OnOk result (Changes (λ m. Some (mirrored (B.size m.inner) m.held.items)) self.old self.new (Sets n from.now)) }
        ensures leaves { OnErr result (Changes (λ m. Some (mirrored (B.size m.inner) m.held.items)) self.old self.new (SameBut (n ∷ []))) }
        ensures size { B.size self.new.inner ≡ B.size self.old.inner }
        ensures calls { Counts (λ m. m.calls) self.old self.new }
        ensures calm { OnOk result (self.new.faults ≡ self.old.faults) }
        ensures cause { HasCause (λ m. m.faults) self.old self.new result }
        ensures asked { OnOk result (Changes B.holds self.old.inner self.new.inner (Sets n from.now)) }
        ensures fair { n ≤ vec_capacity self.old.held → OnErr result (Rose B.faults self.old.inner self.new.inner) }
    {
        self.calls = self.calls.saturating_add(1);
        if !self.keep(n, from) {
            self.faults = self.faults.saturating_add(1);
            return Err(Failed);
        }
        if self.inner.write(n, from).is_ok() {
            return Ok(());
        }
        self.faults = self.faults.saturating_add(1);
        Err(Failed)
    }
}
