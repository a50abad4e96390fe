// What the directory of a chunk file says of one chunk.
ghost use Rattle.std.specs.Prelude.{◌≡◌, ◌≤◌};
ghost use Rattle.chunk_files.specs.Kinds.{told_kind};
ghost use Rattle.chunk_files.specs.Layouts.{right, body_length};

use crate::kind::BodyKind;

/// The byte at which the body of a chunk starts, the number of its filled cells, its kind, and a byte that is 0.
#[derive(Clone, Copy)]
pub struct Entry {
    pub start: u32,
    pub count: u16,
    // as it lies in the file, where any byte may stand; `body_kind` tells what it means
    pub kind: u8,
    pub spare: u8,
}

impl Entry {
    // Whether it is right for a body that begins at byte `at`.
    pub(crate) fn is_right(self, at: usize, cells: usize) -> bool
        ensures { result ≡ right cells at self }
    {
        self.start as usize == at
            && BodyKind::try_from(self.kind).is_ok()
            && usize::from(self.count) <= cells
            && self.spare == 0
    }

    // How its body is written. A byte that is no kind, which no right entry has, counts as words.
    pub(crate) fn body_kind(self) -> BodyKind
        ensures { result ≡ told_kind self.kind }
    {
        BodyKind::try_from(self.kind).unwrap_or(BodyKind::Words)
    }

    // The number of bytes of its body.
    pub(crate) fn body_length(self, cells: usize) -> usize
        requires { cells ≤ 16384 }
        ensures { result ≡ body_length cells self }
    {
        match self.body_kind() {
            BodyKind::Pairs => 6 * usize::from(self.count),
            BodyKind::Words => 4 * cells,
        }
    }
}
