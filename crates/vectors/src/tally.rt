/// How many cases were compared, and how many of them differ.
#[derive(Clone, Copy, Default)]
pub(crate) struct Tally {
    pub(crate) compared: u32,
    pub(crate) differ: u32,
}

impl Tally {
    pub(crate) fn note(&mut self, same: bool) {
        self.compared = self.compared.saturating_add(1);
        if !same {
            self.differ = self.differ.saturating_add(1);
        }
    }
}
