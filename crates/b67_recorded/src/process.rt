//! A process that records its words, and the paths of the files that it opened.

ghost use Rattle.std.specs.Prelude.{◌≡◌, []};

use crate::mirror::Mirrored;
use crate::record::Texts;
use b67_program::Devices;
use std::marker::PhantomData;

/// What a program has its words and its files from, and what it had. Its files are mirrored.
#[derive(Drop)]
pub struct RecordedProcess<D: Devices + Drop> {
    pub(crate) inner: D,
    pub(crate) words: Texts,
    pub(crate) opened: Texts,
    files: PhantomData<Mirrored<D::File>>,
}

impl<D: Devices + Drop> RecordedProcess<D> {
    /// No word was given yet, and no file opened.
    pub fn new(inner: D) -> Self
        ensures words { result.words.texts ≡ [] }
        ensures opened { result.opened.texts ≡ [] }
        ensures inner { result.inner ≡ inner }
    {
        RecordedProcess {
            inner,
            words: Texts::new(),
            opened: Texts::new(),
            files: PhantomData,
        }
    }
}
