//! The letter of an answer.

/// Which repair of a pair is the nearest, up or down, or that the pair is fixed.
#[derive(Clone, Copy, Debug, PartialEq, Eq)]
pub enum Letter {
    Up,
    Down,
    Fixed,
}
