//! Whether names are pairwise distinct.
ghost use Rattle.std.specs.Prelude.{IsTrue, ◌↔◌};
ghost use Rattle.startup.specs.Names.{AreDistinct};

/// Whether no name is in the list twice. Sorts the list, so that it takes at most n log n
/// comparisons.
pub fn are_distinct(names: &mut [&str]) -> bool
    ensures { IsTrue result ↔ AreDistinct names.old }
{
    names.sort_unstable();
    for i in 1..names.len() {
        if names[i - 1] == names[i] {
            return false;
        }
    }
    true
}
