//! Tests of worlds and of the program's answers that `command_stories` can't tell: single steps, two
//! databases, replies that no short script has, writers that fail, and arguments too long for a story.
#![tactic(auto)]

#[cfg(test)]
mod answers;
#[cfg(test)]
mod databases;
#[cfg(test)]
mod faults;
#[cfg(test)]
mod outcomes;
#[cfg(test)]
mod schedules;
