//! A set of rows, of which the least is taken in a few instructions. Few walks come to it, so it isn't
//! inlined.
ghost use Rattle.std.specs.Prelude.{◌≡◌, ◌≢◌, ◌⊎◌, ◌↔◌, ◌/◌, ◌%◌, ◌*◌, ◌<◌, ◌≤◌, ℕ, length, slice_index};
ghost use Rattle.std.specs.Prelude.{MatchOption};
ghost use Rattle.tp_manager.specs.RowSets.{Has, IsEmpty, IsLeast};

use std::marker::Model;

/// A set of rows below 12,288, which is more than the largest manager has: row i is bit i % 64 of word i /
/// 64. And which of these words are not 0, in the same way.
#[derive(Drop)]
pub(crate) struct RowSet {
    words: [u64; 192],
    groups: [u64; 3],
}

impl Model for RowSet {
    ghost use Rattle.std.specs.Prelude.{ℕ, List};
    ghost use Rattle.tp_manager.specs.RowSets.{IsSummed};

    ghost Value = { List ℕ };

    ghost view = { λ s. s.words };

    ghost invariant = { λ s. IsSummed s.words s.groups };
}

/// A set that is empty, but while a walk goes on: a walk takes out again what it put in, and so no call
/// clears it.
#[derive(Drop)]
pub(crate) struct NoRows {
    pub rows: RowSet,
    pub ghost none: { IsEmpty rows },
}

/// Sets a bit.
#[inline(always)]
fn set_bit(words: &mut [u64], place: u32)
    requires { place / 64 < length words.old }
    ensures has { Has words.new place }
    ensures others { (i : ℕ) → i ≢ place → Has words.new i ↔ Has words.old i }
    ensures apart { (w : ℕ) → w ≢ place / 64 → slice_index words.new w ≡ slice_index words.old w }
{
    let word = (place / 64) as usize;
    words[word] |= 1 << (place % 64);
}

/// Clears a bit.
#[inline(always)]
fn clear_bit(words: &mut [u64], place: u32)
    requires { place / 64 < length words.old }
    ensures has { ¬ Has words.new place }
    ensures others { (i : ℕ) → i ≢ place → Has words.new i ↔ Has words.old i }
    ensures apart { (w : ℕ) → w ≢ place / 64 → slice_index words.new w ≡ slice_index words.old w }
{
    let word = (place / 64) as usize;
    words[word] &= !(1 << (place % 64));
}

/// The least place of a set bit.
#[inline(always)]
fn least_bit(words: &[u64]) -> Option<u32>
    requires { length words.now ≤ 3 }
    ensures { MatchOption result (IsEmpty words.now) (IsLeast words.now) }
{
    let mut base = 0;
    for word in words {
        if *word != 0 {
            return Some(base + word.trailing_zeros());
        }
        base += 64;
    }
    None
}

/// The least place of a set bit of this word, which isn't 0: of all, if those before it are.
#[inline(always)]
fn lowest_bit(words: &[u64], word: u32) -> u32
    requires inside { (word < length words.now) × (word < 192) }
    requires some { 0 < slice_index words.now word }
    ensures word { result / 64 ≡ word }
    ensures least { ((w : ℕ) → w < word → slice_index words.now w ≡ 0) → IsLeast words.now result }
{
    word * 64 + words[word as usize].trailing_zeros()
}

impl RowSet {
    /// The empty set.
    pub(crate) fn new() -> RowSet
        ensures { IsEmpty result }
    {
        RowSet {
            words: [0; 192],
            groups: [0; 3],
        }
    }

    /// Puts a row in.
    #[inline(always)]
    pub(crate) fn insert(&mut self, row: u32)
        requires { row < 12288 }
        ensures { (i : ℕ) → Has self.new i ↔ (Has self.old i ⊎ (i ≡ row)) }
    {
        set_bit(&mut self.words, row);
        set_bit(&mut self.groups, row / 64);
    }

    /// Takes the least row out.
    #[inline(never)]
    pub(crate) fn take_least(&mut self) -> Option<u32>
        ensures { MatchOption result
            (IsEmpty self.old × (self.new ≡ self.old))
            (λ row. IsLeast self.old row × ((i : ℕ) → Has self.new i ↔ (Has self.old i × (i ≢ row)))) }
    {
        let Some(word) = least_bit(&self.groups) else {
            return None;
        };
        let row = lowest_bit(&self.words, word);
        clear_bit(&mut self.words, row);
        if self.words[word as usize] == 0 {
            clear_bit(&mut self.groups, word);
        }
        Some(row)
    }

    /// Puts the rows from `first` on and before `end` in.
    #[inline(never)]
    pub(crate) fn insert_run(&mut self, first: u32, end: u32)
        requires { first < end → end ≤ 12288 }
        ensures { (i : ℕ) → Has self.new i ↔ (Has self.old i ⊎ ((first ≤ i) × (i < end))) }
    {
        for row in first..end {
            self.insert(row);
        }
    }
}
