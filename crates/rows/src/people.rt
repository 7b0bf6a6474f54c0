//! What a person of either side says: the number, and who is of the other side.
ghost use Rattle.std.specs.Prelude.{◌≡◌, ℕ, refl};

use format::{Man, Woman};

/// A person of one of the two sides, by number.
pub trait Person: Copy {
    ghost number: { Self → ℕ };

    ghost numbered: { ℕ → Self };

    /// The person's number.
    fn number(self) -> u8
        ensures { result ≡ number self };

    /// The person with a number.
    fn numbered(byte: u8) -> Self
        ensures { result ≡ numbered byte };

    ghost inverse: { (n : ℕ) → number (numbered n) ≡ n };
}

/// A person in a matching, whose partners are of the other side.
pub trait Agent: Person {
    /// A person of the other side.
    type Other;

    /// The person's number, for an index of a table.
    fn index(self) -> usize
        ensures { result ≡ Self.number self };
}

impl Person for Man {
    ghost number = { λ m. m.0 };

    ghost numbered = { λ n. record { 0 = n } };

    ghost inverse = { λ n. refl };

    fn number(self) -> u8 {
        let Man(number) = self;
        number
    }

    fn numbered(byte: u8) -> Man {
        Man(byte)
    }
}

impl Agent for Man {
    type Other = Woman;

    fn index(self) -> usize {
        let Man(man) = self;
        usize::from(man)
    }
}

impl Person for Woman {
    ghost number = { λ w. w.0 };

    ghost numbered = { λ n. record { 0 = n } };

    ghost inverse = { λ n. refl };

    fn number(self) -> u8 {
        let Woman(number) = self;
        number
    }

    fn numbered(byte: u8) -> Woman {
        Woman(byte)
    }
}

impl Agent for Woman {
    type Other = Man;

    fn index(self) -> usize {
        let Woman(woman) = self;
        usize::from(woman)
    }
}
