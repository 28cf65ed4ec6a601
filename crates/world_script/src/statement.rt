//! What a line of a script says.
ghost use Rattle.std.specs.Prelude.{◌≡◌, ◌||◌, ◌==◌};
ghost use Rattle.std.specs.Option.{option_map};
ghost use Rattle.world_script.specs.EventLine.{two_word_event};
ghost use Rattle.world_script.specs.Reads.{Finds};
ghost use Rattle.world_script.specs.Script.{says_nothing, statement_of, three_words};
ghost use Rattle.world_script.specs.declared.statement.Statement.TheVariants as says;

use crate::event_line::{login_event, one_word_event, two_word_event};
use crate::fault::LineFault;
use crate::node_line::NodeLine;
use crate::word::words;
use std::alloc::Global;
use world::Event;

/// What a line says.
#[derive(Debug, Drop)]
pub(crate) enum Statement {
    /// Nothing: it is empty or a comment.
    Nothing,
    /// There is this node.
    Node(NodeLine),
    /// This happens.
    Event(Event),
}

impl Statement {
    /// What a line says, without the blanks at its ends.
    #[tactic(auto, unfolding(crate::specs::Script::statement_of))]
    pub(crate) fn read(alloc: Global, line: &str) -> Result<Statement, LineFault>
        ensures { Finds result (statement_of line.now) }
    {
        if says_nothing(line) {
            return Ok(Statement::Nothing);
        }
        let words = words(alloc, line)?;
        match words.as_slice() {
            [name, word] => Ok(Statement::Event(one_word_event(alloc, name, word)?)),
            [name, first, second] => two_words(name, first, second).ok_or(LineFault::Form),
            [name, first, second, third] => {
                three_words(name, first, second, third).ok_or(LineFault::Form)
            }
            _ => Err(LineFault::Form),
        }
    }
}

fn says_nothing(line: &str) -> bool
    ensures { result ≡ says_nothing line.now }
{
    line.is_empty() || line.as_bytes()[0] == b'#'
}

fn two_words(name: &str, first: &str, second: &str) -> Option<Statement>
    ensures { result ≡ option_map says.Event (two_word_event name.now first.now second.now) }
{
    Some(Statement::Event(two_word_event(name, first, second)?))
}

#[tactic(auto, unfolding(crate::specs::Script::three_words))]
fn three_words(name: &str, first: &str, second: &str, third: &str) -> Option<Statement>
    ensures { result ≡ three_words name.now first.now second.now third.now }
{
    match name {
        "node" => Some(Statement::Node(NodeLine::read(first, second, third)?)),
        _ => Some(Statement::Event(login_event(name, first, second, third)?)),
    }
}
