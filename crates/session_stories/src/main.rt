//! Plays stories of connections at a node, and prints what each stream was given.
#![tactic(auto)]

mod book;
mod counted;
mod encoder;
mod failing;
mod kinds;
mod line;
mod name;
mod node;
mod stage;
mod story;
mod sum;
mod telling;
mod words;

use crate::book::Book;
use crate::telling::tell;
use std::alloc::{AllocError, Global};
use std::io;
use std::sync::Arc;

fn main(rt: HostRuntime) -> io::Result<()> {
    let alloc = rt.alloc();
    let text = io::read_to_string(alloc, rt.stdin())?;
    let book = book_of(alloc, text.as_str())?;
    for part in text.as_str().split("\n\n") {
        let told = tell(&rt, alloc, &book, part)?;
        println!(rt; "{told}")?;
    }
    Ok(())
}

// What the whole text gives names to.
fn book_of(alloc: Global, text: &str) -> Result<Arc<Book, Global>, AllocError> {
    let book = Book::read(alloc, text)?;
    Ok(Arc::new(alloc, book)?)
}
