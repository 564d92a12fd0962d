use ante_pack::TableKey;

/// A row that a run has met. It is live until it is removed.
#[derive(Clone, Copy, Debug)]
pub struct MetRow {
    pub table: TableKey,
    pub primary: u64,
    pub live: bool,
}
