// What a release answers.
use crate::Token;

// A point and its time, and the token of the test that the point is, if it is one.
pub struct ReleasedStep<T> {
    pub point: u8,
    pub at: T,
    pub token: Option<Token>,
}

// A row, and a point in it.
#[derive(Clone, Copy)]
pub(crate) struct Turn {
    pub(crate) row: u8,
    pub(crate) point: u8,
}
