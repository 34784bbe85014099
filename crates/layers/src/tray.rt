//! The table of kept entries.
ghost use Rattle.std.specs.Prelude.{◌≡◌, ◌<◌, [], ◌∷◌, ◌++◌, length, slice_index};
ghost use Rattle.layers.specs.Tray.{entries_kept};

use crate::staged::Tray;

impl Tray {
    pub(crate) fn empty() -> Tray
        ensures { entries_kept result ≡ [] }
    {
        Tray {
            kept: [0; 16],
            len: 0,
        }
    }

    // The entry before which i others came.
    pub(crate) fn entry(&self, i: usize) -> u64
        requires { i < length (entries_kept self.now) }
        ensures { result ≡ slice_index (entries_kept self.now) i }
    {
        self.kept[i]
    }

    // How many entries are kept.
    pub(crate) fn count(&self) -> usize
        ensures { result ≡ length (entries_kept self.now) }
    {
        self.len
    }

    // One more entry, behind the others.
    pub(crate) fn push(&mut self, p: u64)
        requires { length (entries_kept self.old) < 16 }
        ensures { entries_kept self.new ≡ entries_kept self.old ++ p ∷ [] }
    {
        self.kept[self.len] = p;
        self.len += 1;
    }

    // All that is kept: nothing is kept any more.
    pub(crate) fn take(&mut self) -> Tray
        ensures value { result ≡ self.old }
        ensures none { entries_kept self.new ≡ [] }
    {
        std::mem::replace(self, Tray::empty())
    }
}
