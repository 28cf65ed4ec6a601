//! The number of connections that a process's descriptors allow.
use crate::Needs;
use std::process::Abort;

// Returns the number of connections, and that of the other descriptors.
fn shares(needs: Needs, descriptors: usize) -> (usize, usize) {
    let capacity = needs.capacity(descriptors);
    (
        capacity.connections,
        descriptors.saturating_sub(capacity.connections),
    )
}

#[test]
fn links_and_cancels_keep_theirs(rt: HostRuntime) {
    let needs = Needs {
        nodes: 3,
        links: 60,
        clients: 600,
    };
    // 15 of the process, 8 to spare, and 9 for each of 4 listeners leave 965: 60 for links, 120 for
    // cancels.
    assert_eq!(&rt; shares(needs, 1_024), (785, 239));
    // 768 for cancels is all that three nodes carry at a time.
    assert_eq!(&rt; shares(needs, 65_536), (64_649, 887));
    assert_eq!(&rt; needs.capacity(1_024).pending, 960);
    // Of a sixteenth, and of all three nodes.
    assert_eq!(&rt; needs.capacity(1_024).kept, 60);
    assert_eq!(&rt; needs.capacity(65_536).kept, 384);
}

#[test]
fn few_descriptors_are_shared(rt: HostRuntime) {
    let needs = Needs {
        nodes: 1,
        links: 1_000,
        clients: 100,
    };
    // 41 leave 59: 29 for links, 7 for cancels.
    assert_eq!(&rt; shares(needs, 100), (23, 77));
    assert_eq!(&rt; shares(needs, 10), (0, 10));
}

// With what a group needs, as many sessions have a connection as clients may be logged in.
fn expect_room<R: Abort>(rt: &R, needs: Needs) {
    let capacity = needs.capacity(needs.descriptors());
    assert!(rt; capacity.connections - capacity.kept >= needs.clients);
}

#[test]
fn what_is_needed_is_enough(rt: HostRuntime) {
    for clients in [1, 100, 999, 1_000, 5_000, 30_000] {
        for nodes in [1, 3] {
            for links in [1, 60, 1_000] {
                expect_room(
                    &rt,
                    Needs {
                        nodes,
                        links,
                        clients,
                    },
                );
            }
        }
    }
}
