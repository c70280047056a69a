/// The name of `leasekeep`, which stands in front of its fault lines.
pub const PROGRAM: &str = "leasekeep";
