/// The greatest length of a request in bytes, without the line feed that ends it.
pub const LINE_MAX: usize = 65536;
