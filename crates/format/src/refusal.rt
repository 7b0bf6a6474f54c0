//! The rules of the table that a book, a matching or a request can break, and the answer of a check.
use crate::people::{Man, Woman};

/// A broken rule, with the place given. Rule 10 alone has two places, and a rule without one has place 0.
#[derive(Clone, Copy, Debug, PartialEq, Eq)]
pub enum Refusal {
    /// 1: the bytes end before the header, the directory or the size. Its place: how many bytes were given.
    Short { given: usize },
    /// 2: the first byte is no edition.
    Edition,
    /// 3: n is more than the largest. Its place is 1, the byte of n.
    Crowd,
    /// 4: there are bytes past the size. Its place: the size.
    Overlong { size: usize },
    /// 5: a list does not start where the one before ended, or has a wrong length. Its place: its directory pair.
    Directory { at: usize },
    /// 6: an entry is n or more. Its place: that entry.
    Stranger { at: usize },
    /// 7: an entry stands earlier in its list. Its place: that entry.
    Repeat { at: usize },
    /// 8: a matching has not n entries.
    Length,
    /// 9: an entry of a matching is n or more, or stands earlier in it. Its place: that entry.
    Clash { at: usize },
    /// 10: a pair blocks. Its places: the lowest such man, and the first such woman on his list.
    Unstable { man: Man, woman: Woman },
    /// 11: nobody, or no rotation, has the number.
    Unknown,
    /// 12: the two are not together, or who asks is alone.
    Apart,
    /// 13: a request has neither two entries nor four.
    Request,
    /// 14: a result buffer is too short.
    Room,
    /// 15: a set has a wrong length, or a mark over 1.
    Marks,
    /// 16: a set is not closed.
    Open,
    /// 17: there are not n weights.
    Weights,
    /// 18: one lists another who does not list him.
    OneSided,
    /// 19: a given pair does not list each other.
    Unlisted,
}

/// The answer of a check.
pub type Checked = Result<(), Refusal>;
