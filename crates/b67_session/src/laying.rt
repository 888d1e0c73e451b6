//! The words of the MCP, of the stack vector and of the stacks that haven't run.

ghost use Rattle.std.specs.Prelude.{◌≡◌, ◌≢◌, ◌⊎◌, ℕ, ◌+◌, ◌-◌, ◌*◌, ◌<◌, ◌≤◌, length, slice_get, []};
ghost use Rattle.b67_area.specs.Spans.{left};
ghost use Rattle.b67_area.specs.Directory.{IsDirectory};
ghost use Rattle.b67_layout.specs.Session.{RepresentsMcp};
ghost use Rattle.b67_session.specs.Words.{SlotsLie, FirstTaskLies, SlotsFit, LiesAroundDictionaries};
ghost use Rattle.b67_model.specs.declared.limits.TheConstants.{MOST_JOBS};

use b67_area::Areas;
use b67_core::Core;
use b67_ctl::{
    DICTIONARY_STACKS, FIRST_DICTIONARY, FIRST_INTRINSIC, FIRST_TASK, IntrinsicPcw, LAST_INTRINSIC,
    Mscw, STACK_VECTOR, Toscw, VectorWord,
};
use b67_word::Word;

/// Writes the mark of the MCP and the intrinsics.
fn lay_mcp(core: &mut Core)
    requires { 19 ≤ length core.old }
    ensures words { RepresentsMcp core.new }
    ensures outside { (i : ℕ) → 19 ≤ i → slice_get core.new i ≡ slice_get core.old i }
    ensures len { length core.new ≡ length core.old }
{
    let mark = Mscw {
        far: false,
        entered: true,
        env_stack: 0,
        env_disp: 0,
        value: false,
        level: 0,
        back: 0,
    };
    core.set(0, mark.word());
    for number in FIRST_INTRINSIC..LAST_INTRINSIC + 1 {
        let intrinsic = IntrinsicPcw { number };
        core.set(u32::from(number), intrinsic.word());
    }
}

/// Writes the stack of a job's first task into its slot, which begins at an address: the top of the stack, the mark of
/// the outer block, whose environment is the job's dictionary, and a return to nowhere. And the slot's word in the stack
/// vector.
fn lay_first_task(core: &mut Core, slot: u8, at: u32)
    requires few { slot < MOST_JOBS }
    requires above { FIRST_DICTIONARY ≤ at }
    requires inside { at + 3 ≤ length core.old }
    ensures task { FirstTaskLies core.new at slot }
    ensures outside { (i : ℕ) → (i ≢ STACK_VECTOR + slot) → (i < at) ⊎ (at + 3 ≤ i) → slice_get core.new i ≡ slice_get core.old i }
    ensures len { length core.new ≡ length core.old }
{
    let _size = core.size();
    let job = u16::from(slot) + 1;
    let top = Toscw {
        s: 2,
        level: 2,
        f: 1,
    };
    let mark = Mscw {
        far: true,
        entered: true,
        env_stack: DICTIONARY_STACKS + job,
        env_disp: 0,
        value: false,
        level: 2,
        back: 0,
    };
    let vector = VectorWord {
        parent: FIRST_TASK,
        job: slot + 1,
    };
    core.set(STACK_VECTOR + u32::from(slot), vector.word());
    core.set(at, top.word());
    core.set(at + 1, mark.word());
    core.set(at + 2, Word::of(3, 0));
}

/// Writes the stacks of the first tasks of `jobs` jobs into slots of `size` words each, from an address on.
fn lay_slots(core: &mut Core, stacks: u32, size: u16, jobs: u8)
    requires { SlotsFit core.old stacks size jobs }
    ensures slots { SlotsLie core.new stacks size jobs }
    ensures outside { (i : ℕ) → (i < STACK_VECTOR) ⊎ ((STACK_VECTOR + jobs ≤ i) × (i < stacks)) → slice_get core.new i ≡ slice_get core.old i }
    ensures len { length core.new ≡ length core.old }
{
    let _size = core.size();
    let mut at = stacks;
    'slots: for slot in 0..jobs {
        lay_first_task(core, slot, at);
        at += u32::from(size);
    }
}

/// Writes all that lies outside of the dictionaries, which end where the stacks begin, and leaves the rest of core to
/// areas.
pub fn lay_core(core: &mut Core, stacks: u32, size: u16, jobs: u8) -> Areas
    requires { SlotsFit core.old stacks size jobs }
    ensures core { LiesAroundDictionaries core.old core.new stacks size jobs }
    ensures areas { result ≡ record { size = length core.old; low = stacks + jobs * size } }
    ensures directory { IsDirectory core.new (stacks + jobs * size) (left (length core.old - (stacks + jobs * size)) []) }
{
    let _size = core.size();
    lay_mcp(core);
    lay_slots(core, stacks, size, jobs);
    Areas::new(core, stacks + u32::from(jobs) * u32::from(size))
}
