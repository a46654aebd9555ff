//! Bytes on their way into a writer of std: taken, and not yet written.

ghost use Rattle.std.specs.Prelude.{◌≡◌, ◌++◌, ◌-◌, ◌≤◌, [], nat_le, length, take, drop, min};
ghost use Rattle.outside_io.specs.declared.gathered.TheConstants.{MOST_GATHERED};

use std::marker::Model;

/// So many bytes are gathered, and then written at once: a short write costs more than its bytes.
pub const MOST_GATHERED: usize = 8192;

/// Bytes that wait until there are enough of them for a write. Contracts see them as a list.
#[derive(Drop)]
pub(crate) struct Gathered {
    bytes: [u8; MOST_GATHERED],
    len: usize,
}

impl Model for Gathered {
    ghost use Rattle.std.specs.Prelude.{ℕ, List, ◌≤◌, take};
    ghost use Rattle.outside_io.specs.declared.gathered.TheConstants.{MOST_GATHERED};

    ghost Value = { List ℕ };

    ghost view = { λ g. take g.len g.bytes };

    ghost invariant = { λ g. g.len ≤ MOST_GATHERED };
}

impl Gathered {
    /// No byte waits.
    pub(crate) fn none() -> Gathered
        ensures { result ≡ [] }
    {
        Gathered {
            bytes: [0; MOST_GATHERED],
            len: 0,
        }
    }

    /// The bytes that wait, in the order in which they came.
    pub(crate) fn as_slice(&self) -> &[u8]
        ensures { result.now ≡ self.now }
    {
        &self.bytes[..self.len]
    }

    /// Whether there is no room for a byte more.
    pub(crate) fn is_full(&self) -> bool
        ensures { result ≡ nat_le MOST_GATHERED (length self.now) }
    {
        self.len >= MOST_GATHERED
    }

    /// Takes in a front of a piece, as much as there is room for, and says how many bytes that is.
    pub(crate) fn take_in(&mut self, piece: &[u8]) -> usize
        ensures count { result ≡ min (length piece.now) (MOST_GATHERED - length self.old) }
        ensures bytes { self.new ≡ self.old ++ take result piece.now }
    {
        let len = self.len;
        let count = piece.len().min(MOST_GATHERED - len);
        self.bytes[len..len + count].copy_from_slice(&piece[..count]);
        self.len = len + count;
        count
    }

    /// Lets the first bytes go, and moves the others to the front.
    pub(crate) fn let_go(&mut self, count: usize)
        requires { count ≤ length self.old }
        ensures { self.new ≡ drop count self.old }
    {
        let len = self.len;
        self.bytes.copy_within(count..len, 0);
        self.len = len - count;
    }
}
