//! A pace for the tests of workers: it holds each of two pieces of work until the other was begun.
//!
//! It stands on `edge_io` for `Pace`. Where two workers are at work at once, both pieces begin, and neither is held for
//! long; where one worker does all, the first piece is held in vain, and the pace tells so.
#![tactic(auto)]

use edge_io::Pace;
use std::sync::atomic::{AtomicU64, Ordering};

// How often a held worker looks for the other.
const MOST_LOOKS: u64 = 50_000_000;

/// A piece of work, as a worker tells it: its group, and its place in it.
#[derive(Clone, Copy, PartialEq, Eq)]
pub struct Piece {
    pub group: u32,
    pub place: u32,
}

/// Holds two pieces of work, each until the other was begun.
#[derive(Drop)]
pub struct Meeting {
    one: Piece,
    two: Piece,
    one_begun: AtomicU64,
    two_begun: AtomicU64,
    in_vain: AtomicU64,
}

impl Meeting {
    /// Two pieces that are still to begin.
    pub fn of(one: Piece, two: Piece) -> Meeting {
        Meeting {
            one,
            two,
            one_begun: AtomicU64::new(0),
            two_begun: AtomicU64::new(0),
            in_vain: AtomicU64::new(0),
        }
    }

    /// Whether both pieces began, and neither was held until the other was over.
    pub fn was_held(&self) -> bool {
        self.one_begun.load(Ordering::SeqCst) != 0
            && self.two_begun.load(Ordering::SeqCst) != 0
            && self.in_vain.load(Ordering::SeqCst) == 0
    }

    // Waits until the other piece has begun, but not for ever.
    fn hold(&self, own: &AtomicU64, other: &AtomicU64) {
        own.store(1, Ordering::SeqCst);
        for _ in 0..MOST_LOOKS {
            if other.load(Ordering::SeqCst) != 0 {
                return;
            }
        }
        self.in_vain.store(1, Ordering::SeqCst);
    }
}

impl Pace for Meeting {
    fn before(&self, group: u32, place: u32) {
        let piece = Piece { group, place };
        if piece == self.one {
            self.hold(&self.one_begun, &self.two_begun);
        } else if piece == self.two {
            self.hold(&self.two_begun, &self.one_begun);
        }
    }

    fn after(&self, _group: u32, _place: u32) {}
}
