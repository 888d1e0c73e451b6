//! Numbers that a seed gives, one after the other.

ghost use Rattle.std.specs.Prelude.{◌≡◌, ◌<◌, ◌≤◌, ◌^◌};
ghost use Rattle.b67_gen.specs.Generated.{drawn, below};

/// The state of the draws, which begins as the seed.
#[derive(Drop)]
pub struct Draws {
    state: u32,
    ghost inside: { state < 2 ^ 31 },
}

impl Draws {
    /// The draws that begin with a seed below 2^31.
    pub fn new(seed: u32) -> Self
        requires { seed < 2 ^ 31 }
        ensures { result.state ≡ seed }
    {
        Draws { state: seed }
    }

    /// The next number below a bound.
    pub fn below(&mut self, bound: u32) -> u32
        requires { 0 < bound }
        ensures state { self.new.state ≡ drawn self.old.state }
        ensures number { result ≡ below bound (drawn self.old.state) }
        ensures inside { result < bound }
    {
        let next = (u64::from(self.state) * 1_103_515_245 + 12_345) % (1 << 31);
        self.state = next as u32;
        self.state / 65_536 % bound
    }
}
