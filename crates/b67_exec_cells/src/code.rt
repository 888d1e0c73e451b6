//! The code of the running segment in core, and the operator at the running place.

ghost use Rattle.std.specs.Prelude.{◌≡◌, Some};
ghost use Rattle.b67_layout.specs.Meets.{RunsSome, ForEach};
ghost use Rattle.b67_exec_cells.specs.Running.{code_desc, GivesReading, GivesSegment};

use b67_ctl::SegDesc;
use b67_model::{Op, Undecodable};
use b67_stack::Cpu;
use b67_syllable::decode_in_segment;
use b67_word::Place;

/// The descriptor of the running segment.
#[inline(always)]
pub fn descriptor(cpu: &Cpu) -> SegDesc
    requires { RunsSome cpu.now }
    ensures { ForEach cpu.now (λ x plan s m t. result ≡ code_desc x plan m t) }
{
    let at = cpu.regs.dict + u32::from(cpu.regs.segment);
    SegDesc::read(cpu.core.get(at))
}

/// The descriptor of the running segment, if it is present.
#[inline(always)]
pub fn present_segment(cpu: &Cpu) -> Option<SegDesc>
    requires { RunsSome cpu.now }
    ensures { ForEach cpu.now (λ x plan s m t. GivesSegment x plan m t result) }
{
    let desc = descriptor(cpu);
    if !desc.present {
        return None;
    }
    Some(desc)
}

/// The operator at the running place and the place after it, or why there is none. The running segment is present, and
/// this is its descriptor.
#[inline(always)]
pub fn read_in(cpu: &Cpu, desc: SegDesc) -> Result<(Op, Place), Undecodable>
    requires runs { RunsSome cpu.now }
    requires segment { ForEach cpu.now (λ x plan s m t. GivesSegment x plan m t (Some desc)) }
    ensures { ForEach cpu.now (λ x plan s m t. GivesReading x plan m t (Some result)) }
{
    let code = cpu.core.words(desc.address, desc.words);
    decode_in_segment(code, cpu.regs.place)
}
