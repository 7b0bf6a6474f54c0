//! The letter of an answer as a byte of a sheet.
ghost use Rattle.std.specs.Prelude.{◌≡◌, ℕ};
ghost use Rattle.repairs.specs.Letter.{letter_code};

use repairs::Letter;

/// The letter of an answer, or the byte that stands for it.
pub trait AnswerLetter: Copy {
    ghost code: { Self → ℕ };

    /// The byte that stands for the letter in a sheet.
    fn byte(self) -> u8
        ensures { result ≡ code self };
}

impl AnswerLetter for Letter {
    ghost code = { letter_code };

    fn byte(self) -> u8 {
        match self {
            Letter::Up => b'U',
            Letter::Down => b'D',
            Letter::Fixed => b'F',
        }
    }
}

impl AnswerLetter for u8 {
    ghost code = { λ byte. byte };

    fn byte(self) -> u8 {
        self
    }
}
