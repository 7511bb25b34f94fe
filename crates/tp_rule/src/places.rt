//! Where the words are in the table. First come those of each row, then one for each unit. Then come the
//! marks, one of each kind for each part and one for all spare rows. The last one counts drawn blocks. The
//! rows of the parts come first, and after them those of the spare blocks.
ghost use Rattle.std.specs.Prelude.{◌≡◌, ◌+◌, ◌*◌, ◌<◌, ◌≤◌, ◌↔◌, ℕ, IsOk, IfOk, Err};
ghost use Rattle.tp_model.specs.Steps.{AreLimits};
ghost use Rattle.tp_rule.specs.Places.{mark_place as marks_from, unit_place as units_from, IsThere};
ghost use Rattle.tp_rule.specs.Places.{MarkWord, PlacesDiffer, PlacesInside};

use tp_model::types::{BLOCK_ROWS, BODY_WORDS, Limits, Refusal};

/// How many words a row has: its head, its body and its claim, in this order.
pub const ROW_WORDS: usize = BODY_WORDS + 2;

/// How many kinds of marks there are: that of all stages but replies, and one for each stage from 1 to 15.
pub const MARK_KINDS: usize = 16;

/// How many words the marks of one kind have: one for each of the most parts and one for the spare rows, in
/// whole lines of a cache.
pub const MARK_LINE: usize = 40;

/// The places of the words of a table. It has at most 94,849 words.
#[derive(Clone, Copy, Debug, PartialEq, Eq)]
pub struct Places {
    /// What the table has room for, each limit in its range.
    pub limits: Limits,
    /// The places of the first unit's word and of the first mark, computed once: nearly every step asks for
    /// one.
    first_unit: u32,
    first_mark: u32,
    pub ghost valid: { AreLimits limits },
    ghost units: { first_unit ≡ units_from limits 0 },
    ghost marks: { first_mark ≡ marks_from limits 0 0 },
}

impl Places {
    ghost use Rattle.tp_model.specs.Steps.{block_first, part_rows, rows_of, units_of, IsArea};
    ghost use Rattle.tp_rule.specs.Places.{head_place, body_place, claim_place, unit_place, mark_place};
    ghost use Rattle.tp_rule.specs.Places.{drawn_place, size_of};
    ghost use Rattle.tp_model.specs.declared.types.TheConstants.{BODY_WORDS};
    ghost use Rattle.tp_rule.specs.declared.places.TheConstants.{MARK_KINDS};
    ghost use Rattle.tp_model.specs.declared.types.Refusal.TheVariants as Refusal;

    /// The places for these limits. The one refusal is `BadLimits`, for a limit outside its range.
    pub fn new(limits: Limits) -> Result<Places, Refusal>
        ensures valid { IsOk result ↔ AreLimits limits }
        ensures ok { IfOk result (λ p. p.limits ≡ limits) }
        ensures bad { (result ≡ Err Refusal.BadLimits) ↔ (¬ AreLimits limits) }
    {
        if !limits.is_valid() {
            return Err(Refusal::BadLimits);
        }
        let parts = limits.parts as u32;
        let rows = parts * limits.rows as u32 + BLOCK_ROWS as u32 * limits.spare as u32;
        let first_unit = ROW_WORDS as u32 * rows;
        let first_mark = first_unit + parts * limits.units as u32;
        Ok(Places {
            limits,
            first_unit,
            first_mark,
        })
    }

    /// How many rows the parts have, at most 8192.
    #[inline(always)]
    pub fn part_rows(&self) -> u32
        ensures { result ≡ part_rows self.now.limits }
    {
        self.limits.parts as u32 * self.limits.rows as u32
    }

    /// How many rows there are, at most 10,240: those of the parts, and 8 for each spare block.
    #[inline(always)]
    pub fn rows(&self) -> u32
        ensures { result ≡ rows_of self.now.limits }
    {
        self.part_rows() + BLOCK_ROWS as u32 * self.limits.spare as u32
    }

    /// The first row of a spare block. For the number of blocks it is the row after the last one.
    pub fn block_first(&self, block: u16) -> u32
        requires { block ≤ self.now.limits.spare }
        ensures first { result ≡ block_first self.now.limits block }
        ensures inside { result ≤ rows_of self.now.limits }
    {
        self.part_rows() + BLOCK_ROWS as u32 * block as u32
    }

    /// The row after the last one of this row's part, or of its block where it is a spare one.
    #[tactic(auto, using(crate::proofs::PlaceLemmas::part_area, crate::proofs::PlaceLemmas::block_area))]
    pub fn area_end(&self, row: u32) -> u32
        requires { row < rows_of self.now.limits }
        ensures area { (first : ℕ) × IsArea self.now.limits first result × (first ≤ row) × (row < result) }
        ensures inside { result ≤ rows_of self.now.limits }
    {
        let rows = self.limits.rows as u32;
        let parts = self.part_rows();
        if row < parts {
            (row / rows + 1) * rows
        } else {
            parts + ((row - parts) / BLOCK_ROWS as u32 + 1) * BLOCK_ROWS as u32
        }
    }

    /// How many words there are.
    pub fn size(&self) -> usize
        ensures { result ≡ size_of self.now.limits }
    {
        self.drawn() + 1
    }

    /// The place of the head of a row.
    #[inline(always)]
    pub fn head(&self, row: u32) -> usize
        requires { row < rows_of self.now.limits }
        ensures place { result ≡ head_place row }
        ensures inside { result < size_of self.now.limits }
    {
        ROW_WORDS * row as usize
    }

    /// The place of a word of the body of a row, from word 0 on.
    #[inline(always)]
    pub fn body(&self, row: u32, word: usize) -> usize
        requires row { row < rows_of self.now.limits }
        requires word { word < BODY_WORDS }
        ensures place { result ≡ body_place row word }
        ensures inside { result < size_of self.now.limits }
    {
        self.head(row) + 1 + word
    }

    /// The place of the claim of a row.
    #[inline(always)]
    pub fn claim(&self, row: u32) -> usize
        requires { row < rows_of self.now.limits }
        ensures place { result ≡ claim_place row }
        ensures inside { result < size_of self.now.limits }
    {
        self.head(row) + 1 + BODY_WORDS
    }

    /// The place of the word of a unit.
    #[inline(always)]
    pub fn unit(&self, unit: u16) -> usize
        requires { unit < units_of self.now.limits }
        ensures place { result ≡ unit_place self.now.limits unit }
        ensures inside { result < size_of self.now.limits }
    {
        self.first_unit as usize + unit as usize
    }

    /// The place of the mark of a kind of a part, or of the spare rows where `part` is the number of parts.
    #[inline(always)]
    pub fn mark(&self, kind: u8, part: u16) -> usize
        requires kind { kind < MARK_KINDS }
        requires part { part ≤ self.now.limits.parts }
        ensures place { result ≡ mark_place self.now.limits kind part }
        ensures there { IsThere self.now.limits (MarkWord kind part) }
        ensures inside { result < size_of self.now.limits }
    {
        self.first_mark as usize + MARK_LINE * kind as usize + part as usize
    }

    /// The place of the counter of drawn blocks.
    #[inline(always)]
    pub fn drawn(&self) -> usize
        ensures place { result ≡ drawn_place self.now.limits }
        ensures inside { result < size_of self.now.limits }
    {
        self.first_mark as usize + MARK_LINE * MARK_KINDS
    }
}

/// Places of different words differ, and each lies below the number of words. The function does nothing: its
/// contract is the law.
pub fn places_differ()
    ensures differ { PlacesDiffer }
    ensures inside { PlacesInside }
{}
