//! The closing account: all passes look together, and the first counts.
ghost use Rattle.std.specs.Prelude.{◌≡◌, ◌+◌, ◌*◌, ◌<◌, ◌≤◌, ℕ, All, List, [], length, true, false};
ghost use mathlib.Core.List.{IsPrefix};
ghost use Rattle.tp_model.specs.declared.event.Event.{Event};
ghost use Rattle.tp_model.specs.Accounts.{account_among, all_in, one_more};
ghost use Rattle.tp_model.specs.Steps.{max_rows, rows_of, IsStage};
ghost use Rattle.tp_rule.specs.Tables.{table_limits, table_of, IsSeatOf};
ghost use Rattle.tp_rule.specs.Views.{seen_by, view_of, IsSameSeat};
ghost use Rattle.tp_manager.specs.Bounds.{account_steps, gather_first, gather_kept, gather_steps, led_steps};
ghost use Rattle.tp_manager.specs.Bounds.{look_steps, meet_steps};
ghost use Rattle.tp_manager.specs.Accounts.{Accounts, AreAll, Gathers, steps_together};
ghost use Rattle.tp_manager.specs.Shown.{IsKeptBy, IsOf};
ghost use Rattle.tp_manager.specs.Together.{IsAt, LooksOn, LooksWith, AreAllPasses, CountsWith, GathersWith};
ghost use Rattle.tp_manager.specs.Together.{AreLots, FoundDrawn, HaveFound, lots};
ghost use Rattle.tp_manager.specs.Together.{IsWithin, HasCounted, account_below, with_one};
ghost use Rattle.tp_manager.specs.Looks.{GoesOn};
ghost use Rattle.tp_manager.specs.CallSteps.{Acted, IsSteady, Looked, Steady};
ghost use Rattle.tp_manager.specs.BetweenCalls.{RemembersDrawn};
ghost use Rattle.tp_rule.specs.Steps.{Knows};
ghost use Rattle.tp_rule.specs.declared.view.Known.TheVariants.{BlocksDrawn};

use crate::manager::{Keeper, Manager, Pass, Shared};
use tp_model::types::{Account, Counts, STAGES, Status};
use tp_rule::Seat;

/// The account of no element.
fn no_account() -> Account
    ensures none { (limit : ℕ) (h : List Event) → result ≡ account_among limit h [] }
    ensures within { IsWithin 0 result }
{
    let none = Counts {
        waiting: 0,
        held: 0,
        consumed: 0,
        parked: 0,
        killed: 0,
    };
    Account {
        total: none,
        stages: [none; STAGES],
    }
}

/// These counts with one more element of this status.
fn counts_with(counts: Counts, status: Status) -> Counts
    requires few { all_in counts ≤ max_rows }
    ensures { result ≡ one_more status counts }
{
    let mut counts = counts;
    match status {
        Status::Waiting { attempts: _ } => counts.waiting += 1,
        Status::Held {
            unit: _,
            attempt: _,
        } => counts.held += 1,
        Status::Consumed { unit: _ } => counts.consumed += 1,
        Status::Parked { attempts: _ } => counts.parked += 1,
        Status::Killed => counts.killed += 1,
    }
    counts
}

/// Counts one more element of this stage and status.
fn count_one(account: &mut Account, stage: u8, status: Status)
    requires stage { IsStage stage }
    requires few { IsWithin max_rows account.old }
    ensures counted { account.new ≡ with_one stage status account.old }
    ensures within { (n : ℕ) → IsWithin n account.old → IsWithin (n + 1) account.new }
{
    let place = stage as usize - 1;
    account.total = counts_with(account.total, status);
    account.stages[place] = counts_with(account.stages[place], status);
}

impl Shared {
    /// A pass meets the passes of another seat, however many: all have then seen the same, which begins with
    /// what either seat had seen. How many spare blocks are drawn, which all have found then.
    fn meet_seat(&self, first: &mut Seat, others: &mut Seat) -> u16
        requires own { IsSeatOf self.now.words first.old × IsSeatOf self.now.words others.old }
        requires steady { Steady (table_limits self.now.words) (view_of first.old) }
        ensures same { IsSameSeat first.old first.new × IsSameSeat others.old others.new }
        ensures acted { Acted (table_limits self.now.words) meet_steps (view_of first.old)
            (view_of first.new) }
        ensures others { LooksOn (table_limits self.now.words) (seen_by first.new)
            (view_of others.old) (view_of others.new) }
        ensures saw { IsPrefix (seen_by others.old) (seen_by first.new) }
        ensures found { FoundDrawn result
            (view_of first.old) (view_of first.new) (view_of others.old) (view_of others.new) }
        ensures shares { AreLots (table_limits self.now.words) result
            (lots (view_of first.new) (view_of others.new) []) }
    {
        let words = &self.words;
        words.join(first, others);
        let drawn = words.load_drawn_together(first);
        *others = words.part(first);
        drawn
    }

    /// A pass looks together with the passes of another seat and with all of these. It meets one after
    /// another, so that it has seen what each has; each that it met joins the other seat, and at last the
    /// pass meets that. How many spare blocks are drawn, which each of these passes remembers.
    fn look_together(&self, first: &mut Seat, others: &mut Seat, passes: &mut [Pass]) -> u16
        requires own { IsSeatOf self.now.words first.old × IsSeatOf self.now.words others.old }
        requires steady { Steady (table_limits self.now.words) (view_of first.old) }
        requires passes { All (IsAt (table_of self.now.words) (table_limits self.now.words)) passes.old }
        ensures same { IsSameSeat first.old first.new × IsSameSeat others.old others.new }
        ensures look { LooksWith (table_of self.now.words) (table_limits self.now.words)
            (length passes.old + 1)
            (view_of first.old) (view_of first.new) (view_of others.old) (view_of others.new)
            passes.old passes.new }
        ensures found { FoundDrawn result
            (view_of first.old) (view_of first.new) (view_of others.old) (view_of others.new) }
        ensures shares { AreLots (table_limits self.now.words) result
            (lots (view_of first.new) (view_of others.new) passes.new) }
        ensures seen { HaveFound result passes.new }
    {
        let Some((pass, rest)) = passes.split_first_mut() else {
            return self.meet_seat(first, others);
        };
        self.meet_seat(first, &mut pass.seat);
        self.words.join(&mut pass.seat, others);
        let drawn = self.look_together(first, &mut pass.seat, rest);
        *others = self.words.part(&mut pass.seat);
        pass.run.drawn = drawn;
        drawn
    }

    /// Counts the element of one more row, if one is born; `row` goes on.
    fn count_row(&self, seat: &mut Seat, row: &mut u32, account: &mut Account)
        requires steady { IsSteady self.now.words seat.old }
        requires row { row.old < rows_of (table_limits self.now.words) }
        requires few { IsWithin row.old account.old }
        ensures same { IsSameSeat seat.old seat.new }
        ensures on { GoesOn (table_limits self.now.words) row.old row.new }
        ensures looked { let l = table_limits self.now.words in
            Looked l (look_steps l) (view_of seat.old) (view_of seat.new) }
        ensures few { IsWithin row.new account.new }
        ensures counted { let l = table_limits self.now.words in
            account.old ≡ account_below l (seen_by seat.old) row.old
            → HasCounted l row.new (view_of seat.old) (view_of seat.new) account.new }
    {
        let here = *row;
        let head = self.head_on(seat, row);
        let Some(birth) = self.birth_from(seat, here, head) else {
            return;
        };
        let status = self.status_at(seat, here);
        count_one(account, birth.stage, status);
    }

    /// The account that one pass finds as it looks at every row: that of what it has seen, if nothing has
    /// happened meanwhile.
    fn count_rows(&self, seat: &mut Seat) -> Account
        requires steady { IsSteady self.now.words seat.old }
        ensures same { IsSameSeat seat.old seat.new }
        ensures looked { let l = table_limits self.now.words in
            Looked l (rows_of l * look_steps l) (view_of seat.old) (view_of seat.new) }
        ensures counted { let l = table_limits self.now.words in
            HasCounted l (rows_of l) (view_of seat.old) (view_of seat.new) result }
    {
        let rows = self.places.rows();
        let mut account = no_account();
        let mut row = 0;
        while row < rows {
            self.count_row(seat, &mut row, &mut account);
        }
        account
    }

    /// A pass meets the passes of the keeper's seat, and looks together with those and with these. How many
    /// spare blocks are drawn.
    fn gather_with(&self, first: &mut Seat, keeper: &mut Seat, passes: &mut [Pass]) -> u16
        requires own { IsSeatOf self.now.words first.old × IsSeatOf self.now.words keeper.old }
        requires steady { Steady (table_limits self.now.words) (view_of first.old) }
        requires passes { All (IsAt (table_of self.now.words) (table_limits self.now.words)) passes.old }
        ensures same { IsSameSeat first.old first.new × IsSameSeat keeper.old keeper.new }
        ensures gathers { GathersWith (table_of self.now.words) (table_limits self.now.words)
            (gather_first (length passes.old + 1)) gather_kept led_steps
            (view_of first.old) (view_of first.new) (view_of keeper.old) (view_of keeper.new)
            passes.old passes.new }
        ensures drawn { RemembersDrawn (view_of first.new) result }
        ensures risen { (n : ℕ) → Knows (view_of first.old) (BlocksDrawn n) → n ≤ result }
        ensures shares { AreLots (table_limits self.now.words) result
            (lots (view_of first.new) (view_of keeper.new) passes.new) }
        ensures seen { HaveFound result passes.new }
    {
        self.meet_seat(first, keeper);
        self.look_together(first, keeper, passes)
    }

    /// The account that a pass finds between two looks together with the passes of the keeper's seat and with
    /// these, which are all others; and how many spare blocks are drawn.
    fn count_with(&self, first: &mut Seat, keeper: &mut Seat, passes: &mut [Pass]) -> (Account, u16)
        requires own { IsSeatOf self.now.words first.old × IsSeatOf self.now.words keeper.old }
        requires steady { Steady (table_limits self.now.words) (view_of first.old) }
        requires passes { All (IsAt (table_of self.now.words) (table_limits self.now.words)) passes.old }
        requires all { AreAllPasses (table_limits self.now.words)
            (view_of first.old) (view_of keeper.old) passes.old }
        ensures same { IsSameSeat first.old first.new × IsSameSeat keeper.old keeper.new }
        ensures counts { CountsWith (table_of self.now.words) (table_limits self.now.words)
            (length passes.old + 1)
            (view_of first.old) (view_of first.new) (view_of keeper.old) (view_of keeper.new)
            passes.old passes.new result.0 }
        ensures drawn { RemembersDrawn (view_of first.new) result.1 }
        ensures risen { (n : ℕ) → Knows (view_of first.old) (BlocksDrawn n) → n ≤ result.1 }
        ensures shares { AreLots (table_limits self.now.words) result.1
            (lots (view_of first.new) (view_of keeper.new) passes.new) }
        ensures seen { HaveFound result.1 passes.new }
    {
        self.gather_with(first, keeper, passes);
        let account = self.count_rows(first);
        let drawn = self.look_together(first, keeper, passes);
        (account, drawn)
    }
}

impl Keeper {
    /// Whether the slice holds every pass that was given out, in order of number.
    pub fn has_all(&self, passes: &[Pass]) -> bool
        ensures yes { result ≡ true → AreAll self.now passes.now }
        ensures no { result ≡ false → ¬ AreAll self.now passes.now }
    {
        if passes.len() != usize::from(self.given) {
            return false;
        }
        for place in 0..passes.len() {
            if usize::from(passes[place].number()) != place {
                return false;
            }
        }
        true
    }

    /// All passes look, until all have seen one history, and all know how many spare blocks are drawn. The
    /// slice holds every pass that was given out, in order of number (`has_all` tests this). The keeper
    /// stands for those that weren't. It takes no memory.
    pub fn gather(&mut self, manager: &Manager, passes: &mut [Pass])
        requires keeper { IsKeptBy manager.now self.old }
        requires own { All (IsOf manager.now) passes.old }
        requires all { AreAll self.old passes.old }
        ensures keeper { IsKeptBy manager.now self.new × (self.new.given ≡ self.old.given) }
        ensures own { All (IsOf manager.now) passes.new }
        ensures all { AreAll self.new passes.new }
        ensures steps { steps_together passes.old passes.new + self.new.steps
            ≤ self.old.steps + gather_steps manager.now.limits self.old.given }
        ensures gathers { let l = manager.now.limits in
            Gathers l (gather_steps l (length passes.old)) self.old self.new passes.old passes.new }
    {
        let shared = &manager.shared;
        let others = &mut self.seat;
        let Some((first, rest)) = passes.split_first_mut() else {
            return;
        };
        let drawn = shared.gather_with(&mut first.seat, others, rest);
        first.run.drawn = drawn;
    }

    /// How many elements have each kind of status, in all and by stage. It is the account of one history,
    /// which all passes have seen when it returns. All know then how many spare blocks are drawn. The slice
    /// holds every pass that was given out, in order of number (`has_all` tests this). The keeper stands for
    /// those that weren't. It takes no memory.
    pub fn account(&mut self, manager: &Manager, passes: &mut [Pass]) -> Account
        requires keeper { IsKeptBy manager.now self.old }
        requires own { All (IsOf manager.now) passes.old }
        requires all { AreAll self.old passes.old }
        ensures keeper { IsKeptBy manager.now self.new × (self.new.given ≡ self.old.given) }
        ensures own { All (IsOf manager.now) passes.new }
        ensures all { AreAll self.new passes.new }
        ensures steps { steps_together passes.old passes.new + self.new.steps
            ≤ self.old.steps + account_steps manager.now.limits self.old.given }
        ensures account { Accounts manager.now.limits self.old self.new passes.old passes.new result }
    {
        let shared = &manager.shared;
        let others = &mut self.seat;
        let Some((first, rest)) = passes.split_first_mut() else {
            return no_account();
        };
        let (account, drawn) = shared.count_with(&mut first.seat, others, rest);
        first.run.drawn = drawn;
        account
    }
}
