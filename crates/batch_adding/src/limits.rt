/// The most rows of a batch.
pub const BATCH: usize = 5;
