//! The table of 256 buckets: where the chain of each begins, and a bit for each, set exactly while it holds an entry.

ghost use Rattle.std.specs.Prelude.{◌≡◌, ℕ, ◌+◌, ◌-◌, ◌<◌, replicate, if◌then◌else◌, MatchOption, ◌≢◌, nat_lt, slice_index, slice_set};
ghost use Rattle.std.specs.Int.{bit_at};
ghost use Rattle.std.specs.Iterator.{at_most};
ghost use Rattle.buckets.specs.Bitmap.{occupied, Clear, First};

use crate::chain::NONE;

// Bits stand beside `first`, since a word of bits tells of 64 buckets at once which are empty.
#[derive(Clone, Copy)]
pub struct Heads {
    bits: [u64; 4],
    first: [usize; 256],
}

impl Heads {
    pub(crate) fn new() -> Heads
        ensures bits { result.bits ≡ replicate 4 0 }
        ensures first { result.first ≡ replicate 256 18446744073709551615 }
    {
        Heads {
            bits: [0; 4],
            first: [NONE; 256],
        }
    }

    pub(crate) fn clear(&mut self)
        ensures bits { self.new.bits ≡ replicate 4 0 }
        ensures first { self.new.first ≡ replicate 256 18446744073709551615 }
    {
        *self = Heads::new();
    }

    /// Where the chain of the bucket b begins.
    pub(crate) fn first(&self, b: u8) -> usize
        ensures { result ≡ slice_index self.now.first b }
    {
        self.first[usize::from(b)]
    }

    // The clause `others` stands at three functions, since each says it of its own change.
    /// Has the chain of the bucket b, which now holds an entry, begin at `at`.
    pub(crate) fn fill(&mut self, b: u8, at: usize)
        ensures first { self.new.first ≡ slice_set self.old.first b at }
        ensures here { occupied self.new.bits b ≡ 1 }
        ensures others { (k : ℕ) → k < 256 → (k ≢ b) → occupied self.new.bits k ≡ occupied self.old.bits k }
    {
        let i = usize::from(b);
        self.first[i] = at;
        let word = self.bits[i / 64];
        self.bits[i / 64] = with_bit(word, i % 64);
    }

    /// Empties the bucket b.
    // Two functions: with an `Option` each half would still set or clear its bit by another word.
    pub(crate) fn empty(&mut self, b: u8)
        ensures first { self.new.first ≡ slice_set self.old.first b 18446744073709551615 }
        ensures here { occupied self.new.bits b ≡ 0 }
        ensures others { (k : ℕ) → k < 256 → (k ≢ b) → occupied self.new.bits k ≡ occupied self.old.bits k }
    {
        let i = usize::from(b);
        self.first[i] = NONE;
        let word = self.bits[i / 64];
        self.bits[i / 64] = without_bit(word, i % 64);
    }

    /// Has the chain of the bucket b begin at `next`, or empties it where that is past the cells.
    pub(crate) fn advance(&mut self, b: u8, next: usize, room: usize)
        ensures first { self.new.first ≡ slice_set self.old.first b (if nat_lt next room then next else 18446744073709551615) }
        ensures here { occupied self.new.bits b ≡ (if nat_lt next room then 1 else 0) }
        ensures others { (k : ℕ) → k < 256 → (k ≢ b) → occupied self.new.bits k ≡ occupied self.old.bits k }
    {
        if next < room {
            self.fill(b, next);
        } else {
            self.empty(b);
        }
    }

    /// The buckets from `from` on that hold an entry.
    pub(crate) fn filled(&self, from: usize) -> Filled<'_>
        ensures heads { result.heads.now ≡ self.now }
        ensures from { result.from ≡ from }
    {
        Filled { heads: self, from }
    }

    /// The first bucket from `from` on that holds an entry.
    fn first_filled(&self, from: usize) -> Option<u8>
        ensures { MatchOption result (Clear (occupied self.now.bits) from 256) (λ b. First (occupied self.now.bits) from 256 b) }
    {
        // Of the word of `from` only the bits from its own on are asked for, of those after it all.
        let mut low = from % 64;
        for i in from / 64..4 {
            if let Some(k) = lowest(self.bits[i], low) {
                return Some((i * 64 + k) as u8);
            }
            low = 0;
        }
        None
    }
}

/// The buckets that hold an entry, in rising order.
#[derive(Drop)]
pub(crate) struct Filled<'a> {
    heads: &'a Heads,
    from: usize,
}

impl Iterator for Filled<'_> {
    type Item = u8;

    ghost next_gives = { λ s r t. (t.heads.now ≡ s.heads.now) × MatchOption r (Clear (occupied s.heads.now.bits) s.from 256) (λ b. First (occupied s.heads.now.bits) s.from 256 b × (t.from ≡ b + 1)) };

    ghost remaining = { λ s. at_most (256 - s.from) };

    fn next(&mut self) -> Option<u8> {
        let b = self.heads.first_filled(self.from)?;
        self.from = usize::from(b) + 1;
        Some(b)
    }
}

fn with_bit(word: u64, k: usize) -> u64
    requires { k < 64 }
    ensures here { bit_at result k ≡ 1 }
    ensures others { (j : ℕ) → (j ≢ k) → bit_at result j ≡ bit_at word j }
{
    word | (1 << k)
}

fn without_bit(word: u64, k: usize) -> u64
    requires { k < 64 }
    ensures here { bit_at result k ≡ 0 }
    ensures others { (j : ℕ) → j < 64 → (j ≢ k) → bit_at result j ≡ bit_at word j }
{
    word & !(1 << k)
}

/// The lowest bit of a word, from `from` on.
fn lowest(word: u64, from: usize) -> Option<usize>
    requires { from < 64 }
    ensures { MatchOption result (Clear (bit_at word) from 64) (λ t. First (bit_at word) from 64 t) }
{
    match word >> from {
        0 => None,
        rest => Some(from + rest.trailing_zeros() as usize),
    }
}
