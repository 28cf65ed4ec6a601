//! Settings without a file, and a file that is read with little memory. What each file gives, and
//! which groups there are, `settings_stories` has.
mod plain_nodes;
mod refused_memory;
