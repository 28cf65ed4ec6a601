//! A session, message by message.
ghost use Rattle.std.specs.Prelude.{◌≡◌, ◌∷◌, ◌++◌, [], IfOk, OnErr};
ghost use Rattle.stub_server.specs.declared.transaction.Transaction.TheVariants.{Idle};
ghost use Rattle.stub_server.specs.Answers as answer;
ghost use Rattle.stub_server.specs.Answers.{Replies, outcome_of, Does};
ghost use Rattle.stub_server.specs.Asked.{asked};
ghost use Rattle.stub_server.specs.Query.{Echo};

use crate::messages::{
    command_complete, data_row, error_response, ready_for_query, row_description,
};
use crate::query::{Query, query_text};
use crate::{Act, Transaction};
use pg_frames::Frame;
use startup::ErrorCode;
use std::alloc::{AllocError, Global};
use std::marker::Model;

/// A client's session after its login. In contracts it is how its transaction stands.
#[derive(Debug, Drop)]
pub struct Session {
    alloc: Global,
    transaction: Transaction,
}

impl Model for Session {
    ghost use Rattle.stub_server.specs.declared.transaction.Transaction.{Transaction};

    ghost Value = { Transaction };

    ghost view = { λ s. s.transaction };
}

impl Session {
    /// A session that begins. It takes no memory; its answers will.
    pub const fn new(alloc: Global) -> Session
        ensures { result ≡ Idle }
    {
        Session {
            alloc,
            transaction: Transaction::Idle,
        }
    }

    /// What is done with a client's message. Fails if memory runs out, or for a value of 4 GiB or
    /// more, which no message of the format has.
    pub fn on_message(&mut self, message: &Frame) -> Result<Act, AllocError>
        ensures act { IfOk result (λ act. Does message.now self.old (outcome_of act self.new)) }
        ensures err { OnErr result (self.new ≡ self.old) }
    {
        match query_text(message) {
            Some(text) => self.on_query(Query::of(text)),
            None => Ok(Act::Close),
        }
    }

    /// The answer to a query that ran and was interrupted. Fails if memory runs out.
    pub fn on_interrupt(&mut self) -> Result<Vec<Frame>, AllocError>
        ensures messages { IfOk result
            (λ messages. Replies messages.items self.new ≡ answer.interrupted self.old) }
        ensures err { OnErr result (self.new ≡ self.old) }
    {
        self.fail(ErrorCode::QueryCanceled)
    }

    // What is done with a query.
    fn on_query(&mut self, query: Query<'_>) -> Result<Act, AllocError>
        ensures act { IfOk result
            (λ act. outcome_of act self.new ≡ answer.answer (asked query.entry) self.old) }
        ensures err { OnErr result (self.new ≡ self.old) }
    {
        match self.transaction {
            Transaction::Idle | Transaction::Open => self.run(query),
            Transaction::Failed => Ok(Act::Reply(self.refuse(query)?)),
        }
    }

    // The same where no transaction failed.
    fn run(&mut self, query: Query<'_>) -> Result<Act, AllocError>
        ensures act { IfOk result
            (λ act. outcome_of act self.new ≡ answer.run (asked query.entry) self.old) }
        ensures err { OnErr result (self.new ≡ self.old) }
    {
        match query {
            Query::Hold => Ok(Act::Hold),
            Query::Echo(value) => Ok(Act::Reply(self.echo(value)?)),
            Query::Begin => Ok(Act::Reply(self.complete(b"BEGIN\0", Transaction::Open)?)),
            Query::Commit => Ok(Act::Reply(self.complete(b"COMMIT\0", Transaction::Idle)?)),
            Query::Other => Ok(Act::Reply(self.fail(ErrorCode::FeatureNotSupported)?)),
        }
    }

    // The answer to a query in a failed transaction.
    fn refuse(&mut self, query: Query<'_>) -> Result<Vec<Frame>, AllocError>
        ensures messages { IfOk result (λ messages. Replies messages.items self.new
            ≡ answer.refuse (asked query.entry) self.old) }
        ensures err { OnErr result (self.new ≡ self.old) }
    {
        match query {
            Query::Commit => self.complete(b"ROLLBACK\0", Transaction::Idle),
            Query::Hold | Query::Echo(_) | Query::Begin | Query::Other => {
                self.fail(ErrorCode::FeatureNotSupported)
            }
        }
    }

    // A row with this value.
    fn echo(&mut self, value: &[u8]) -> Result<Vec<Frame>, AllocError>
        ensures messages { IfOk result (λ messages. Replies messages.items self.new
            ≡ answer.run (Echo value.now) self.old) }
        ensures err { OnErr result (self.new ≡ self.old) }
    {
        let mut messages = Vec::new(self.alloc);
        messages.push(row_description(self.alloc)?)?;
        messages.push(data_row(self.alloc, value)?)?;
        messages.push(command_complete(self.alloc, b"SELECT 1\0")?)?;
        self.reply(messages, self.transaction)
    }

    // That a command is complete, by its tag with the zero byte that ends it.
    fn complete(&mut self, tag: &[u8], after: Transaction) -> Result<Vec<Frame>, AllocError>
        ensures messages { IfOk result (λ messages. Replies messages.items self.new
            ≡ answer.replies (answer.frame 67 tag.now ∷ []) after) }
        ensures err { OnErr result (self.new ≡ self.old) }
    {
        let mut messages = Vec::new(self.alloc);
        messages.push(command_complete(self.alloc, tag)?)?;
        self.reply(messages, after)
    }

    // That a query failed.
    fn fail(&mut self, error: ErrorCode) -> Result<Vec<Frame>, AllocError>
        ensures messages { IfOk result (λ messages. Replies messages.items self.new
            ≡ answer.fails error self.old) }
        ensures err { OnErr result (self.new ≡ self.old) }
    {
        let mut messages = Vec::new(self.alloc);
        messages.push(error_response(self.alloc, error)?)?;
        self.reply(messages, self.transaction.after_error())
    }

    // These messages with ReadyForQuery behind them, which says how the transaction stands.
    fn reply(
        &mut self,
        mut messages: Vec<Frame>,
        after: Transaction,
    ) -> Result<Vec<Frame>, AllocError>
        ensures messages { IfOk result (λ sent. Replies sent.items self.new
            ≡ answer.replies messages.items after) }
        ensures err { OnErr result (self.new ≡ self.old) }
    {
        messages.push(ready_for_query(self.alloc, after)?)?;
        self.transaction = after;
        Ok(messages)
    }
}
