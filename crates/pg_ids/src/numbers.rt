//! Plain numbers, each of a type of its own: of databases, slots, links, runs and long keys.
ghost use Rattle.std.specs.Prelude.{◌≡◌, ℕ};

use std::marker::Model;

/// A database of a pooler, by its place among the entries of `[databases]`, 0 to 63 (own).
#[derive(Clone, Copy, Debug, PartialEq, Eq, PartialOrd, Ord, Hash)]
pub struct DatabaseNo(pub u8);

impl Model for DatabaseNo {
    ghost Value = { ℕ };

    ghost view = { λ d. d.0 };

    ghost inverse = { λ n. record { 0 = n } };
}

impl DatabaseNo {
    /// The place.
    pub const fn get(self) -> u8
        ensures { result ≡ self }
    {
        let DatabaseNo(number) = self;
        number
    }
}

/// The number of a client's slot in its pooler's key table, 0 to 65535.
#[derive(Clone, Copy, Debug, PartialEq, Eq, PartialOrd, Ord, Hash)]
pub struct SlotNo(pub u16);

impl Model for SlotNo {
    ghost Value = { ℕ };

    ghost view = { λ s. s.0 };

    ghost inverse = { λ n. record { 0 = n } };
}

impl SlotNo {
    /// The number, 0 to 65535.
    pub const fn get(self) -> u16
        ensures { result ≡ self }
    {
        let SlotNo(number) = self;
        number
    }
}

/// The number of a link, counted from 0 by its pooler and never given twice (own).
#[derive(Clone, Copy, Debug, PartialEq, Eq, PartialOrd, Ord, Hash)]
pub struct LinkNo(pub u64);

impl Model for LinkNo {
    ghost Value = { ℕ };

    ghost view = { λ l. l.0 };

    ghost inverse = { λ n. record { 0 = n } };
}

impl LinkNo {
    /// The number.
    pub const fn get(self) -> u64
        ensures { result ≡ self }
    {
        let LinkNo(number) = self;
        number
    }
}

/// The number of a run of a pooler, which none of its other runs has (own).
#[derive(Clone, Copy, Debug, PartialEq, Eq, PartialOrd, Ord, Hash)]
pub struct Boot(pub u64);

impl Model for Boot {
    ghost Value = { ℕ };

    ghost view = { λ b. b.0 };

    ghost inverse = { λ n. record { 0 = n } };
}

impl Boot {
    /// The number.
    pub const fn get(self) -> u64
        ensures { result ≡ self }
    {
        let Boot(number) = self;
        number
    }
}

/// The number of a long key among those of its pooler's run, counted from 0 (own).
#[derive(Clone, Copy, Debug, PartialEq, Eq, PartialOrd, Ord, Hash)]
pub struct Serial(pub u64);

impl Model for Serial {
    ghost Value = { ℕ };

    ghost view = { λ s. s.0 };

    ghost inverse = { λ n. record { 0 = n } };
}

impl Serial {
    /// The number.
    pub const fn get(self) -> u64
        ensures { result ≡ self }
    {
        let Serial(number) = self;
        number
    }
}
