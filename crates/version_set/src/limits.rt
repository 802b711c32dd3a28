/// The greatest number that a set may hold.
pub const GREATEST_NUMBER: u32 = 4_294_967_295;
