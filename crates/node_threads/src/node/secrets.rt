//! Secrets for the slots of a node's clients.
ghost use Rattle.std.specs.Prelude.{◌≡◌};

use pg_ids::{PeerNo, Secret};
use rand_chacha::ChaCha20Rng;
use rand_core::SeedableRng;
use rand_core::utils::NextWord;
use std::marker::Model;

/// The secrets of a node, one after the other: the words of the generator ChaCha with 20 rounds. A
/// group's nodes may have one seed, since each has a stream of its own, by its number. The words
/// repeat after 2^68.
#[derive(Drop)]
pub struct Secrets {
    words: ChaCha20Rng,
}

impl Model for Secrets {
    ghost use Rattle.std.specs.Prelude.{◌<◌, ◌^◌};
    ghost use Rattle.node_threads.specs.Secrets.{Drawing};

    ghost Value = { Drawing };

    ghost view = { λ s. record {
      key = s.words.key;
      stream = s.words.stream;
      drawn = s.words.word_pos;
    } };

    ghost invariant = { λ s. s.words.word_pos < 2 ^ 68 };
}

impl Secrets {
    ghost use Rattle.node_threads.specs.Secrets.{drawing_of, secret_at, drawn_once};

    /// The secrets of this node, from the first on. The operator hands in another seed at each
    /// start. It takes no memory.
    pub fn new(seed: [u8; 32], peer: PeerNo) -> Secrets
        ensures { result ≡ drawing_of seed peer }
    {
        let mut words = ChaCha20Rng::from_seed(seed);
        words.set_stream(peer.get() as u64);
        Secrets { words }
    }

    /// The secret with this number, from 0. It waits for nobody, and takes no memory. It isn't inlined,
    /// so that a connection's stack has no room for a copy of the generator.
    #[inline(never)]
    pub fn at(&self, number: u64) -> Secret
        ensures { result ≡ secret_at self.now number }
    {
        let Ok(mut words) = self.words.clone() else {
            unreachable!()
        };
        words.set_word_pos(number as u128);
        Secret(words.next_word())
    }

    /// The next secret. It waits for nobody, and takes no memory.
    pub fn draw(&mut self) -> Secret
        ensures secret { result ≡ secret_at self.old self.old.drawn }
        ensures next { self.new ≡ drawn_once self.old }
    {
        Secret(self.words.next_word())
    }
}
