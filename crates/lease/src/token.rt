//! A right that is used once.
ghost use Rattle.std.specs.Prelude.{◌≡◌};

use std::marker::Model;

/// A right, of which a record says what it is. It can't be copied, and has to be spent.
#[must_use]
#[derive(Debug)]
pub struct Token<R> {
    details: R,
}

impl<R> Model for Token<R> {
    ghost Value = { R };

    ghost view = { λ t. t.details };
}

impl<R> Token<R> {
    /// A token with this record. The steps of a node make tokens, and so does `world`, for each step
    /// that takes one.
    pub const fn new(details: R) -> Token<R>
        ensures { result ≡ details }
    {
        Token { details }
    }

    /// Spends the token, and returns its record. The steps of a node spend tokens, and so does
    /// `world`, which keeps only their records.
    pub fn spend(self) -> R
        ensures { result ≡ self }
    {
        let Token { details } = self;
        details
    }

    /// Does the same as `spend`. The name marks where no step of a node takes the token: where a
    /// journal or a caller has used up its calls, where a desk is a list, and where the command
    /// `decide` ends.
    pub fn forfeit(self) -> R
        ensures { result ≡ self }
    {
        self.spend()
    }
}

impl<R: Copy> Token<R> {
    /// The token's record.
    pub const fn details(&self) -> R
        ensures { result ≡ self.now }
    {
        self.details
    }
}
