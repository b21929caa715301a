// Limits of a plan.

// The time of point `to` minus that of point `from` is at most `bound`, in every row that has each
// letter of `wanted` true and each letter of `unwanted` false. Both are sets of bits, bit i for
// letter i, in one byte as in a plan file.
#[derive(Clone, Copy, PartialEq, Eq, Debug)]
pub struct Limit<T> {
    pub from: u8,
    pub to: u8,
    pub wanted: u8,
    pub unwanted: u8,
    pub bound: T,
}
