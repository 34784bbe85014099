use accounts::register_account::RegisterAccount;
use forms::words::KindName;

/// The kind that was told, and the left account.
#[derive(Drop)]
pub(crate) struct Books {
    pub(crate) kind: KindName,
    pub(crate) left: RegisterAccount,
}
