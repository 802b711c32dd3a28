/// How many values four bytes have: a count and a length are below it.
pub const FIELD: usize = 4_294_967_296;
