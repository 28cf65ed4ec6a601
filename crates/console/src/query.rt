//! Which text is which query.
ghost use Rattle.std.specs.Prelude.{◌≡◌, ◌++◌, ◌↔◌, IsTrue, codes, IfSome, IfNone};
ghost use Rattle.console.specs.declared.query.Query.{Query};
ghost use Rattle.console.specs.Rows.{text_of, Asks};

/// A query of the console.
#[derive(Clone, Copy, Debug, PartialEq, Eq)]
pub(crate) enum Query {
    /// The other nodes of the group.
    Peers,
    /// The links to servers.
    Links,
    /// The clients that are logged in.
    Clients,
    /// What became of cancel requests.
    Cancels,
}

impl Query {
    /// The query that a text is: in any case of letters, with at most one `;` at its end.
    pub(crate) fn of(text: &str) -> Option<Query>
        ensures asked { IfSome result (Asks text.now) }
        ensures no_query { IfNone result ((query : Query) → Asks text.now query → ⊥) }
    {
        if Query::Peers.is_asked_by(text) {
            Some(Query::Peers)
        } else if Query::Links.is_asked_by(text) {
            Some(Query::Links)
        } else if Query::Clients.is_asked_by(text) {
            Some(Query::Clients)
        } else if Query::Cancels.is_asked_by(text) {
            Some(Query::Cancels)
        } else {
            None
        }
    }

    // Whether a text is this query.
    fn is_asked_by(self, text: &str) -> bool
        ensures { IsTrue result ↔ Asks text.now self }
    {
        text.eq_ignore_ascii_case(self.text()) || text.eq_ignore_ascii_case(self.closed_text())
    }

    // How the query is written.
    fn text(self) -> &'static str
        ensures { result.now ≡ text_of self }
    {
        match self {
            Query::Peers => "SHOW PEERS",
            Query::Links => "SHOW LINKS",
            Query::Clients => "SHOW CLIENTS",
            Query::Cancels => "SHOW CANCELS",
        }
    }

    // The same with a semicolon.
    fn closed_text(self) -> &'static str
        ensures { result.now ≡ text_of self ++ codes ";" }
    {
        match self {
            Query::Peers => "SHOW PEERS;",
            Query::Links => "SHOW LINKS;",
            Query::Clients => "SHOW CLIENTS;",
            Query::Cancels => "SHOW CANCELS;",
        }
    }
}
