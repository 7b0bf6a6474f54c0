//! The answers of the crates below as replies.
ghost use Rattle.std.specs.Prelude.{◌≡◌, MatchResult};
ghost use Rattle.replies.specs.Replies.{lettered, two_letters};

use crate::reply::{NO_GRADE, Reply};
use format::Refusal;
use repairs::{Answer, PairsAnswer, RequestAnswer};
use rows::{rule_number, rule_place, rule_second};

impl From<Refusal> for Reply {
    ghost use Rattle.format.specs.Refusal.{rule_number, rule_place, rule_second};
    ghost use Rattle.replies.specs.Replies.{denied};

    ghost from_gives = { λ refusal r. r ≡ denied (rule_number refusal) (rule_place refusal) (rule_second refusal) };

    /// A broken rule, with its places.
    fn from(refusal: Refusal) -> Reply {
        Reply {
            number: usize::from(rule_number(refusal)),
            place: rule_place(refusal),
            second: rule_second(refusal),
            letter: 0,
            value: 0,
        }
    }
}

impl From<Answer> for Reply {
    ghost use Rattle.repairs.specs.Repair.{repair_answer};
    ghost use Rattle.replies.specs.Replies.{letter_for};

    ghost from_gives = { λ answer r. r ≡ letter_for (repair_answer answer) };

    /// The letter of a repair and its distance, 0 where the pair is fixed.
    fn from(answer: Answer) -> Reply {
        match answer {
            Answer::Up(repair) => letter(b'U', repair.distance),
            Answer::Down(repair) => letter(b'D', repair.distance),
            Answer::Fixed => letter(b'F', 0),
        }
    }
}

impl From<PairsAnswer> for Reply {
    ghost use Rattle.repairs.specs.Pairs.{pairs_answer};
    ghost use Rattle.replies.specs.Replies.{two_letters_for};

    ghost from_gives = { λ answer r. r ≡ two_letters_for (pairs_answer answer) };

    /// The letters of a repair of two pairs and its distance.
    fn from(answer: PairsAnswer) -> Reply {
        match answer {
            PairsAnswer::UpUp(repair) => letters(b'U', b'U', repair.distance),
            PairsAnswer::UpDown(repair) => letters(b'U', b'D', repair.distance),
            PairsAnswer::DownUp(repair) => letters(b'D', b'U', repair.distance),
            PairsAnswer::DownDown(repair) => letters(b'D', b'D', repair.distance),
            PairsAnswer::Fixed => letter(b'F', 0),
        }
    }
}

impl From<RequestAnswer> for Reply {
    ghost use Rattle.repairs.specs.Pairs.{request_answer};
    ghost use Rattle.replies.specs.Replies.{request_letters_for};

    ghost from_gives = { λ answer r. r ≡ request_letters_for (request_answer answer) };

    /// The reply for one pair, or for two.
    fn from(answer: RequestAnswer) -> Reply {
        match answer {
            RequestAnswer::Pair(one) => one.into(),
            RequestAnswer::Pairs(two) => two.into(),
        }
    }
}

impl From<Option<usize>> for Reply {
    ghost use Rattle.repairs.specs.Grade.{grade_answer};
    ghost use Rattle.replies.specs.Replies.{granted, grade_value};

    ghost from_gives = { λ grade r. r ≡ granted 0 (grade_value (grade_answer grade)) };

    /// A grade: its number, or `NO_GRADE` where no pair can be repaired.
    fn from(grade: Option<usize>) -> Reply {
        Reply::granted(0, grade.unwrap_or(NO_GRADE))
    }
}

impl From<usize> for Reply {
    ghost use Rattle.replies.specs.Replies.{granted};

    ghost from_gives = { λ count r. r ≡ granted 0 count };

    /// A number, of rotations or of bytes.
    fn from(count: usize) -> Reply {
        Reply::granted(0, count)
    }
}

impl From<bool> for Reply {
    ghost use Rattle.laws.specs.Choice.{pick};
    ghost use Rattle.replies.specs.Replies.{granted};

    ghost from_gives = { λ yes r. r ≡ granted 0 (pick yes 1 0) };

    /// Yes or no: 1 or 0.
    fn from(yes: bool) -> Reply {
        Reply::granted(0, usize::from(yes))
    }
}

impl<T: Into<Reply>, E: Into<Reply>> From<Result<T, E>> for Reply {
    ghost from_gives = { λ answer r. MatchResult answer (λ x. T.Into.converts x r) (λ e. E.Into.converts e r) };

    /// What is answered, or what is refused, each with its own reply.
    fn from(answer: Result<T, E>) -> Reply {
        match answer {
            Ok(value) => value.into(),
            Err(refusal) => refusal.into(),
        }
    }
}

/// One letter, and a distance.
fn letter(letter: u8, distance: usize) -> Reply
    ensures { result ≡ lettered letter distance }
{
    Reply::lettered(usize::from(letter), distance)
}

/// Two letters, the first in the low byte, and a distance.
fn letters(first: u8, second: u8, distance: usize) -> Reply
    ensures { result ≡ lettered (two_letters first second) distance }
{
    Reply::lettered(usize::from(first) + 256 * usize::from(second), distance)
}
