use crate::blade::Blade;
use crate::ledger::Ledger;
use crate::visit::Reply;
use refusals::Refusal;

/// A ledger after a list of visits, with its blade and the answers in their order.
pub struct Finished<K, L, R> {
    pub ledger: Ledger<K, L, R>,
    pub blade: Blade,
    pub answers: Vec<Result<Reply, Refusal>>,
}
