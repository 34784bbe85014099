use std::marker::PhantomData;

/// The accounts of two pistes, both of one kind of number.
#[derive(Drop)]
pub struct Ledger<K, L, R> {
    pub(crate) left: L,
    pub(crate) right: R,
    pub(crate) kind: PhantomData<K>,
}
