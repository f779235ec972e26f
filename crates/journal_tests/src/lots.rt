//! Numbers by lot.

use rand_core::utils::NextWord;
use rand_pcg::Pcg32;

/// Draws numbers, the same ones in each run.
#[derive(Drop)]
pub struct Lots {
    words: Pcg32,
}

impl Lots {
    /// The draws of this stream.
    pub fn new(stream: u64) -> Lots {
        Lots {
            words: Pcg32::new(42, stream),
        }
    }

    /// A number below this one; 0 if it is 0.
    pub fn below(&mut self, count: u64) -> u64 {
        let word = u64::from(self.words.next_word());
        if count == 0 { 0 } else { word % count }
    }
}
