//! The lines of a story outside its files.

/// What a line is.
#[derive(Clone, Copy)]
pub enum Line<'a> {
    /// An empty line ends a story.
    End,
    /// A comment.
    Comment,
    /// The lines of a file follow.
    File {
        /// Its name.
        name: &'a str,
        /// Whether a read fails behind them.
        fails: bool,
    },
    /// A call of the program with these arguments, with spaces between.
    Call(&'a str),
    /// Anything else.
    Unknown,
}

impl<'a> Line<'a> {
    /// What this line is.
    pub(crate) fn read(line: &'a str) -> Line<'a> {
        if line.is_empty() {
            return Line::End;
        }
        if line.starts_with('#') {
            return Line::Comment;
        }
        if let Some(arguments) = line.strip_prefix("$ pgpeer") {
            return Line::Call(arguments);
        }
        match line.strip_prefix("file ") {
            Some(rest) => Line::file(rest),
            None => Line::Unknown,
        }
    }

    // The file whose name is behind the first word.
    fn file(rest: &'a str) -> Line<'a> {
        match rest.strip_suffix(" fails") {
            Some(name) => Line::File { name, fails: true },
            None => Line::File {
                name: rest,
                fails: false,
            },
        }
    }
}
