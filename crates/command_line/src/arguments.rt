//! What the arguments behind a command's name give: options with their values, and plain arguments.
ghost use Rattle.std.specs.Prelude.{◌≡◌, ◌<◌, ◌≤◌, [], ◌∷◌, IfErr, IfOk, Some, None, drop, length, map, true, MatchResult};
ghost use Rattle.command_line.specs.Arguments.{asks_help, cut_at, cut_in, given_behind, given_by_all, given_in, is_plain, joined, option_shape, plain_alone, shape_in, shape_of, value_alone, values_of};
ghost use Rattle.std.specs.Option.{option_map};
ghost use Rattle.command_line.specs.Finds.{Finds, Takes};
ghost use Rattle.command_line.specs.Numbers.{at_most_one, only_one};
ghost use Rattle.command_line.specs.Options.{option_named};
ghost use Rattle.command_line.specs.declared.option_name.OptionName.{OptionName};

use crate::command_name::CommandName;
use crate::list::{at_most_one, only_one};
use crate::option_name::OptionName;
use crate::wrong::Wrong;
use std::alloc::{AllocError, Global};

// What one argument is.
#[derive(Clone, Copy)]
enum Shape<'a> {
    // A plain argument.
    Plain,
    // `--`
    End,
    // An option that has no value.
    Flag(OptionName),
    // An option whose value is the next argument.
    Alone(OptionName),
    // An option and its value.
    Whole(OptionName, &'a str),
    // An unknown option.
    Unknown,
}

impl<'a> Shape<'a> {
    #[tactic(auto, unfolding(crate::specs::Arguments::shape_of))]
    fn read(command: CommandName, argument: &'a str) -> Shape<'a>
        ensures { shape_in result ≡ shape_of command argument.now }
    {
        if is_plain(argument) {
            return Shape::Plain;
        }
        if argument == "--" {
            return Shape::End;
        }
        Shape::of_option(command, argument)
    }

    fn of_option(command: CommandName, argument: &'a str) -> Shape<'a>
        ensures { shape_in result ≡ option_shape (option_named command (cut_at 61 argument.now).0)
            (cut_at 61 argument.now).1 }
    {
        let (name, value) = cut_at(argument, '=');
        match (OptionName::read(command, name), value) {
            (None, _) => Shape::Unknown,
            (Some(name), None) => Shape::without_value(name),
            (Some(name), Some(value)) => Shape::with_value(name, value),
        }
    }

    // An option with nothing behind its name.
    fn without_value(name: OptionName) -> Shape<'a>
        ensures { shape_in result ≡ option_shape (Some name) None }
    {
        if name.has_value() {
            Shape::Alone(name)
        } else {
            Shape::Flag(name)
        }
    }

    // An option with a value behind its name.
    fn with_value(name: OptionName, value: &'a str) -> Shape<'a>
        ensures { shape_in result ≡ option_shape (Some name) (Some value.now) }
    {
        if name.has_value() {
            Shape::Whole(name, value)
        } else {
            Shape::Unknown
        }
    }
}

/// What stands before the first such character, and behind it, where there is one.
pub fn cut_at<'a>(text: &'a str, mark: char) -> (&'a str, Option<&'a str>)
    requires { mark < 128 }
    ensures { cut_in result ≡ cut_at mark text.now }
{
    match text.split_once(mark) {
        Some((before, behind)) => (before, Some(behind)),
        None => (text, None),
    }
}

// Whether an argument is no option.
fn is_plain(argument: &str) -> bool
    ensures { result ≡ is_plain argument.now }
{
    argument.len() <= 1 || argument.as_bytes()[0] != b'-'
}

/// Whether arguments ask for help.
pub fn ask_help(arguments: &[&str]) -> bool
    ensures { result ≡ asks_help (map (λ argument. argument.now) arguments.now) }
{
    for argument in arguments {
        if *argument == "--" {
            return false;
        }
        if *argument == "-h" || *argument == "--help" {
            return true;
        }
    }
    false
}

// The value of a command's option, which is the first of these arguments.
fn next_value<'a>(command: CommandName, arguments: &[&'a str]) -> Result<&'a str, Wrong<'a>>
    ensures found { IfOk result (λ value.
        (map (λ word. word.now) arguments.now
        ≡ value.now ∷ map (λ word. word.now) (drop 1 arguments.now))
        × (is_plain value.now ≡ true)) }
    ensures none { IfErr result (λ wrong. (name : OptionName)
        → given_behind command (Some name) (map (λ word. word.now) arguments.now) ≡ None) }
    ensures some { IfOk result (λ _. 0 < length arguments.now) }
{
    if arguments.is_empty() {
        return Err(Wrong::Form);
    }
    let value = arguments[0];
    if !is_plain(value) {
        return Err(Wrong::Form);
    }
    Ok(value)
}

/// An option with its value.
#[derive(Clone, Copy)]
pub struct GivenOption<'a> {
    /// The option.
    pub name: OptionName,
    /// Its value, empty where it has none.
    pub value: &'a str,
}

/// What a command's arguments give.
#[derive(Drop)]
pub struct Given<'a> {
    /// The options, in order.
    pub options: Vec<GivenOption<'a>>,
    /// The plain arguments, in order.
    pub plain: Vec<&'a str>,
}

impl<'a> Given<'a> {
    /// What these arguments of a command give.
    pub fn read(
        alloc: Global,
        command: CommandName,
        arguments: &[&'a str],
    ) -> Result<Given<'a>, Wrong<'a>>
        ensures { Finds given_in result (given_by_all command
            (map (λ argument. argument.now) arguments.now)) }
    {
        let mut given = Given {
            options: Vec::new(alloc),
            plain: Vec::new(alloc),
        };
        let mut at = 0;
        while at < arguments.len() {
            at += given.take(command, arguments.split_at(at).1)?;
        }
        Ok(given)
    }

    // Takes the first of these arguments, and its value where that is the next one. Returns how
    // many it took.
    fn take(&mut self, command: CommandName, arguments: &[&'a str]) -> Result<usize, Wrong<'a>>
        requires { 0 < length arguments.now }
        ensures taken { Takes command (given_in self.old) (given_in self.new) arguments.now result }
        ensures count { IfOk result (λ count. (0 < count) × (count ≤ length arguments.now)) }
    {
        let argument = arguments[0];
        let later = arguments.split_at(1).1;
        match Shape::read(command, argument) {
            Shape::Plain => self.push_plain(argument)?,
            Shape::End => {
                self.take_plain(later)?;
                return Ok(arguments.len());
            }
            Shape::Alone(name) => {
                self.push(name, next_value(command, later)?)?;
                return Ok(2);
            }
            Shape::Flag(name) => self.push(name, "")?,
            Shape::Whole(name, value) => self.push(name, value)?,
            Shape::Unknown => return Err(Wrong::Form),
        }
        Ok(1)
    }

    // Takes an option with its value.
    fn push(&mut self, name: OptionName, value: &'a str) -> Result<(), Wrong<'a>>
        ensures { MatchResult result
            (λ _. given_in self.new ≡ joined (given_in self.old) (value_alone name value.now))
            (λ wrong. wrong ≡ Wrong.Memory) }
    {
        self.options.push(GivenOption { name, value })?;
        Ok(())
    }

    // Takes one plain argument.
    fn push_plain(&mut self, argument: &'a str) -> Result<(), Wrong<'a>>
        ensures { MatchResult result
            (λ _. given_in self.new ≡ joined (given_in self.old) (plain_alone (argument.now ∷ [])))
            (λ wrong. wrong ≡ Wrong.Memory) }
    {
        self.plain.push(argument)?;
        Ok(())
    }

    // Takes plain arguments.
    fn take_plain(&mut self, arguments: &[&'a str]) -> Result<(), Wrong<'a>>
        ensures { MatchResult result
            (λ _. given_in self.new ≡ joined (given_in self.old)
            (plain_alone (map (λ word. word.now) arguments.now)))
            (λ wrong. wrong ≡ Wrong.Memory) }
    {
        for argument in arguments {
            self.plain.push(*argument)?;
        }
        Ok(())
    }

    /// The values of an option, in order.
    pub fn values(&self, alloc: Global, name: OptionName) -> Result<Vec<&'a str>, AllocError>
        ensures { IfOk result (λ values. map (λ value. value.now) values.items
            ≡ values_of name (given_in self.now)) }
    {
        self.options
            .iter()
            .filter(|option| name.is(option.name))
            .map(|option| option.value)
            .collect(alloc)
    }

    /// The value of an option that is given once.
    pub fn once(&self, alloc: Global, name: OptionName) -> Result<&'a str, Wrong<'a>>
        ensures { Finds (λ value. value.now) result
            (only_one (values_of name (given_in self.now))) }
    {
        let values = self.values(alloc, name)?;
        only_one(&values)
    }

    /// The value of an option that is given once or not at all.
    pub fn at_most_once(
        &self,
        alloc: Global,
        name: OptionName,
    ) -> Result<Option<&'a str>, Wrong<'a>>
        ensures { Finds (option_map (λ value. value.now)) result
            (at_most_one (values_of name (given_in self.now))) }
    {
        let values = self.values(alloc, name)?;
        at_most_one(&values)
    }
}
