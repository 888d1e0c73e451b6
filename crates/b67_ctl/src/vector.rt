//! The words of the stack vector.

ghost use Rattle.std.specs.Prelude.{◌≡◌, ◌+◌, ◌*◌, ◌^◌, ◌<◌};
ghost use Rattle.b67_ctl.specs.Vector.{task_word, IsVectorWord};
ghost use Rattle.b67_ctl.specs.declared.vector.VectorWord.{VectorWord};

use b67_word::Word;

/// What the word of a live task in the stack vector has for a parent, if the task has none.
pub const FIRST_TASK: u16 = 1023;

/// The word of a slot in the stack vector, where a task lives: the slot of its parent, [`FIRST_TASK`] for none, and its
/// job. The word of any other slot is zero.
#[derive(Clone, Copy, Debug, PartialEq, Eq)]
pub struct VectorWord {
    pub parent: u16,
    pub job: u8,
}

impl VectorWord {
    /// The word of fields that fit.
    pub fn word(self) -> Word
        requires { IsVectorWord self }
        ensures { result ≡ task_word self }
    {
        Word::of(
            3,
            0x4000_0000_0000
                + u64::from(self.parent) * 0x10_0000_0000
                + u64::from(self.job) * 0x1_0000,
        )
    }

    /// What the word of a slot holds in which a task lives. The word is one: nothing is tested.
    pub fn read(w: Word) -> VectorWord
        ensures value { (v : VectorWord) → IsVectorWord v → w ≡ task_word v → result ≡ v }
        ensures fits { IsVectorWord result }
    {
        VectorWord {
            parent: w.part(36, 10) as u16,
            job: w.part(16, 4) as u8,
        }
    }
}
