// The most rows that one read brings.
pub const PIECE: usize = 16;
