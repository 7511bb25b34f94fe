//! What a walk has come to and not gone on from: two runs of rows, which a processor keeps at hand, or a set.
ghost use Rattle.std.specs.Prelude.{◌≡◌, ◌≢◌, ◌⊎◌, ◌↔◌, ◌+◌, ◌<◌, ◌≤◌, ℕ, List, MatchOption, true, false};
ghost use Rattle.tp_manager.specs.Aheads.{AreSorted, InRun, InRuns, IsAhead, IsSorted, IsTaken};
ghost use Rattle.tp_manager.specs.RowSets.{IsEmpty};

use crate::row_set::RowSet;

/// The rows that a walk has come to and not gone on from, beside a set of rows that belongs to the pass.
///
/// The outputs of a unit are a run of rows, so in a small family two runs are enough. They are the rows from
/// `next` on and before `end`, and after these the ones from `far` on and before `far_end`. Where they
/// aren't, all rows go into the set.
#[derive(Clone, Copy)]
pub(crate) struct Ahead {
    next: u32,
    end: u32,
    far: u32,
    far_end: u32,
    /// Whether the rows are in the set.
    more: bool,
}

impl Ahead {
    /// One row alone.
    #[inline(always)]
    pub(crate) fn of(row: u32) -> Ahead
        requires { row < 12288 }
        ensures sorted { (words : List ℕ) → IsEmpty words → IsSorted result words }
        ensures has { (words : List ℕ) → IsEmpty words → (i : ℕ) → IsAhead result words i ↔ (i ≡ row) }
    {
        Ahead {
            next: row,
            end: row + 1,
            far: 0,
            far_end: 0,
            more: false,
        }
    }

    /// Takes the least row out of the first run.
    #[inline(always)]
    fn take_first(&mut self) -> u32
        requires sorted { AreSorted self.old }
        requires some { self.old.next < self.old.end }
        ensures sorted { AreSorted self.new }
        ensures more { self.new.more ≡ self.old.more }
        ensures least { IsTaken (InRuns self.old) (InRuns self.new) result }
    {
        let row = self.next;
        self.next = row + 1;
        row
    }

    /// Takes the least row out of the second run, which is the first then.
    #[inline(always)]
    fn take_second(&mut self) -> u32
        requires sorted { AreSorted self.old }
        requires none { self.old.end ≤ self.old.next }
        requires some { self.old.far < self.old.far_end }
        ensures sorted { AreSorted self.new }
        ensures more { self.new.more ≡ self.old.more }
        ensures least { IsTaken (InRuns self.old) (InRuns self.new) result }
    {
        let row = self.far;
        self.next = row + 1;
        self.end = self.far_end;
        self.far = self.far_end;
        row
    }

    /// Takes the least row out.
    #[inline(always)]
    pub(crate) fn take_least(&mut self, rows: &mut RowSet) -> Option<u32>
        requires sorted { IsSorted self.old rows.old }
        ensures sorted { IsSorted self.new rows.new }
        ensures least { MatchOption result
            (((i : ℕ) → ¬ IsAhead self.old rows.old i) × IsEmpty rows.new)
            (IsTaken (IsAhead self.old rows.old) (IsAhead self.new rows.new)) }
    {
        if self.next < self.end {
            return Some(self.take_first());
        }
        if self.more {
            return rows.take_least();
        }
        if self.far < self.far_end {
            return Some(self.take_second());
        }
        None
    }

    /// Puts the rows from `first` on and before `end` beside the first run, which has a row, if it can:
    /// whether it did.
    #[inline(always)]
    fn place(&mut self, first: u32, end: u32) -> bool
        requires sorted { AreSorted self.old }
        requires some { self.old.next < self.old.end }
        requires run { (first ≤ end) × (first < end → end ≤ 12288) }
        ensures sorted { AreSorted self.new }
        ensures more { self.new.more ≡ self.old.more }
        ensures yes { result ≡ true → (i : ℕ) → InRuns self.new i ↔ (InRuns self.old i ⊎ InRun first end i) }
        ensures no { result ≡ false → self.new ≡ self.old }
    {
        if self.far < self.far_end {
            if first == self.far_end {
                self.far_end = end;
                return true;
            }
            return false;
        }
        if self.end <= first {
            self.far = first;
            self.far_end = end;
            return true;
        }
        if end <= self.next {
            self.far = self.next;
            self.far_end = self.end;
            self.next = first;
            self.end = end;
            return true;
        }
        false
    }

    /// The same where the first run is empty.
    #[inline(always)]
    fn place_first(&mut self, first: u32, end: u32) -> bool
        requires sorted { AreSorted self.old }
        requires none { self.old.end ≤ self.old.next }
        requires run { (first ≤ end) × (first < end → end ≤ 12288) }
        ensures sorted { AreSorted self.new }
        ensures more { self.new.more ≡ self.old.more }
        ensures yes { result ≡ true → (i : ℕ) → InRuns self.new i ↔ (InRuns self.old i ⊎ InRun first end i) }
        ensures no { result ≡ false → self.new ≡ self.old }
    {
        if self.far >= self.far_end {
            self.next = first;
            self.end = end;
            return true;
        }
        if end <= self.far {
            self.next = first;
            self.end = end;
            return true;
        }
        if self.far_end <= first {
            self.next = self.far;
            self.end = self.far_end;
            self.far = first;
            self.far_end = end;
            return true;
        }
        false
    }

    /// Puts the rows from `first` on and before `end` into the set, and those of the runs too.
    #[inline(always)]
    fn spill(&mut self, rows: &mut RowSet, first: u32, end: u32)
        requires sorted { IsSorted self.old rows.old }
        requires run { first < end → end ≤ 12288 }
        ensures sorted { IsSorted self.new rows.new }
        ensures has { (i : ℕ) → IsAhead self.new rows.new i ↔ (IsAhead self.old rows.old i
            ⊎ InRun first end i) }
    {
        rows.insert_run(self.next, self.end);
        rows.insert_run(self.far, self.far_end);
        rows.insert_run(first, end);
        *self = Ahead {
            next: 0,
            end: 0,
            far: 0,
            far_end: 0,
            more: true,
        };
    }

    /// Puts the `count` rows from `first` on in.
    #[inline(always)]
    pub(crate) fn insert_rows(&mut self, rows: &mut RowSet, first: u16, count: u8)
        requires sorted { IsSorted self.old rows.old }
        requires inside { (i : ℕ) → first ≤ i → i < first + count → i < 12288 }
        ensures sorted { IsSorted self.new rows.new }
        ensures has { (i : ℕ) → IsAhead self.new rows.new i
            ↔ (IsAhead self.old rows.old i ⊎ ((first ≤ i) × (i < first + count))) }
    {
        let from = first as u32;
        let end = from + count as u32;
        if self.next < self.end {
            if self.place(from, end) {
                return;
            }
            self.spill(rows, from, end);
            return;
        }
        if self.more {
            rows.insert_run(from, end);
            return;
        }
        if self.place_first(from, end) {
            return;
        }
        self.spill(rows, from, end);
    }
}
