/// A blade that carries nothing. It comes only with a fresh ledger, and back from a put or a write off; it is never copied.
#[derive(Drop)]
pub struct EmptyBlade {
    pub(crate) mark: (),
}

/// A blade with a load. It may not be let go: a put or a write off spends it.
pub struct LoadedBlade {
    pub(crate) pattern: u64,
}

/// A blade whose state is asked about, for calls that come as data.
// No `Either`: its variants would not say which blade is loaded.
pub enum Blade {
    Empty(EmptyBlade),
    Loaded(LoadedBlade),
}
