//! Seats that step in turn.
ghost use Rattle.std.specs.Prelude.{◌≡◌, ◌+◌, ◌-◌, ◌*◌, ◌<◌, ◌≤◌, [], length, true, IfSome, Some, None};
ghost use mathlib.Core.List.{IsPrefix};
ghost use Rattle.tp_model.specs.declared.trace.StepKind.TheVariants as kinds;
ghost use Rattle.tp_model.specs.declared.types.Element.{Element};
ghost use Rattle.tp_model.specs.History.{Aborted, element_of, end_of, first_id};
ghost use Rattle.tp_model.specs.Steps.{rows_of, units_of, IsServerStage};
ghost use Rattle.tp_rule.specs.Views.{blank_body, hand_of, seen_by, view_of, first_view, fresh_from};
ghost use Rattle.tp_rule.specs.Views.{IsNextRow, IsNextUnit, IsSameSeat};
ghost use Rattle.tp_rule.specs.Steps.{HasWork, IsOwnWork, noted, tail_before};
ghost use Rattle.tp_rule.specs.Tables.{table_limits, IsSeatOf, IsPassOf};

use std::process::Abort;
use tp_model::types::{Body, Limits};
use tp_rule::{Claim, FoundClaim, Head, Places, Seat, UnitWord, Words};

/// Words for three passes of four rows and two units each, with two attempts, and the keeper's seat.
fn small<R: Abort + AllocGlobal>(rt: &R) -> (Words, Seat)
    ensures limits { table_limits result.0
        ≡ record { parts = 3; rows = 4; units = 2; attempts = 2; spare = 0 } }
    ensures seat { IsSeatOf result.0 result.1 }
    ensures view { view_of result.1 ≡ first_view (table_limits result.0) }
    ensures hands { (view_of result.1).hands ≡ fresh_from (table_limits result.0) 0 (3 - 0) }
{
    let limits = Limits {
        parts: 3,
        rows: 4,
        units: 2,
        attempts: 2,
        spare: 0,
    };
    let places = Places::new(limits).expect(rt, "no places");
    Words::new(rt.alloc(), places).expect(rt, "no memory")
}

/// The next pass of the three.
fn pass(words: &Words, keeper: &mut Seat, number: u16) -> Seat
    requires own { IsSeatOf words.now keeper.old }
    requires limits { (view_of keeper.old).limits ≡ table_limits words.now }
    requires left { (number < 3)
        × ((view_of keeper.old).hands ≡ fresh_from (table_limits words.now) number (3 - number)) }
    ensures same { IsSameSeat keeper.old keeper.new }
    ensures limits { (view_of keeper.new).limits ≡ table_limits words.now }
    ensures left { (view_of keeper.new).hands
        ≡ fresh_from (table_limits words.now) (number + 1) (3 - (number + 1)) }
    ensures own { IsSeatOf words.now result }
    ensures one { IsPassOf words.now result }
    ensures number { (hand_of result).number ≡ number }
    ensures rows { let l = table_limits words.now in ((hand_of result).next ≡ number * l.rows)
        × ((hand_of result).left ≡ l.rows) × ((hand_of result).drafts ≡ []) }
    ensures blank { (hand_of result).next_body ≡ blank_body }
    ensures units { ((hand_of result).claimed ≡ 0) × ((hand_of result).open_unit ≡ None) }
    ensures passed { (hand_of result).passed_to ≡ 0 }
{
    words.hand_out(keeper)
}

/// A client's element of stage 1 with this body, in the next row of the pass, which tells of so many right
/// before it.
fn submit(words: &Words, seat: &mut Seat, row: u32, body: Body, tail: u16)
    requires own { IsSeatOf words.now seat.old }
    requires one { IsPassOf words.now seat.old }
    requires next { IsNextRow (table_limits words.now) (view_of seat.old) row }
    requires no_drafts { (hand_of seat.old).drafts ≡ [] }
    requires blank { (hand_of seat.old).next_body ≡ blank_body }
    requires passed { (hand_of seat.old).passed_to ≡ 0 }
    requires tail { tail ≤ tail_before 1 (hand_of seat.old) }
    ensures same { IsSameSeat seat.old seat.new }
    ensures one { IsPassOf words.now seat.new }
    ensures passed { (hand_of seat.new).passed_to ≡ 0 }
    ensures tail { tail_before 1 (hand_of seat.new) ≡ tail + 1 }
    ensures number { (hand_of seat.new).number ≡ (hand_of seat.old).number }
    ensures used { ((hand_of seat.new).next ≡ (hand_of seat.old).next + 1)
        × ((hand_of seat.new).left ≡ (hand_of seat.old).left - 1) }
    ensures drafts { (hand_of seat.new).drafts ≡ [] }
    ensures blank { (hand_of seat.new).next_body ≡ blank_body }
    ensures claimed { (hand_of seat.new).claimed ≡ (hand_of seat.old).claimed }
    ensures open_unit { (hand_of seat.new).open_unit ≡ (hand_of seat.old).open_unit }
{
    words.store_draft_body(seat, row, body);
    words.publish(seat, row, 1, tail);
}

/// Whether the row has a client's element of stage 1 with this root.
fn shows_request(words: &Words, seat: &mut Seat, row: u32, root: u16) -> bool
    requires own { IsSeatOf words.now seat.old }
    requires one { IsPassOf words.now seat.old }
    requires row { row < rows_of (table_limits words.now) }
    ensures same { IsSameSeat seat.old seat.new }
    ensures one { IsPassOf words.now seat.new }
    ensures looked { hand_of seat.new ≡ noted kinds.Load (seen_by seat.new) (hand_of seat.old) }
    ensures later { IsPrefix (seen_by seat.old) (seen_by seat.new) }
    ensures there { result ≡ true
        → (x : Element) × (element_of (seen_by seat.new) row ≡ Some x)
        × IsServerStage x.stage × (x.root ≡ root) }
{
    let head = words.load_head(seat, row);
    head == Head::Filled {
        stage: 1,
        root,
        by: None,
    }
}

/// Claims the element of the row, which has this root, with the pass's next unit, where it was never taken.
fn claim(words: &Words, seat: &mut Seat, row: u32, root: u16, unit: u16) -> bool
    requires own { IsSeatOf words.now seat.old }
    requires one { IsPassOf words.now seat.old }
    requires row { row < rows_of (table_limits words.now) }
    requires next { IsNextUnit (table_limits words.now) (view_of seat.old) unit × (unit < 65535) }
    requires none_open { ((hand_of seat.old).open_unit ≡ None) × ((hand_of seat.old).drafts ≡ []) }
    ensures same { IsSameSeat seat.old seat.new }
    ensures one { IsPassOf words.now seat.new }
    ensures number { (hand_of seat.new).number ≡ (hand_of seat.old).number }
    ensures rows { ((hand_of seat.new).next ≡ (hand_of seat.old).next)
        × ((hand_of seat.new).left ≡ (hand_of seat.old).left) × ((hand_of seat.new).drafts ≡ []) }
    ensures body { (hand_of seat.new).next_body ≡ (hand_of seat.old).next_body }
    ensures passed { (hand_of seat.new).passed_to ≡ (hand_of seat.old).passed_to }
    ensures won { result ≡ true → (hand_of seat.new).open_unit ≡ Some unit }
    ensures work { result ≡ true → (work : IsOwnWork (view_of seat.new) unit) × (work.item.root ≡ root) }
    ensures claimed { result ≡ true → (hand_of seat.new).claimed ≡ (hand_of seat.old).claimed + 1 }
    ensures later { IsPrefix (seen_by seat.old) (seen_by seat.new) }
{
    words.choose_unit(seat, unit);
    if !shows_request(words, seat, row, root) {
        return false;
    }
    match words.claim_exchange(seat, row, FoundClaim::of(Claim::Free), 1, unit) {
        Ok(()) => true,
        Err(_) => false,
    }
}

/// Drafts a reply with the body 0, 10, 20, 30 for the open unit, in the next row of the pass.
fn draft_reply(words: &Words, seat: &mut Seat, row: u32, unit: u16)
    requires own { IsSeatOf words.now seat.old }
    requires one { IsPassOf words.now seat.old }
    requires next { IsNextRow (table_limits words.now) (view_of seat.old) row × (unit < 65535) }
    requires no_drafts { (hand_of seat.old).drafts ≡ [] }
    requires blank { (hand_of seat.old).next_body ≡ blank_body }
    requires open_unit { (hand_of seat.old).open_unit ≡ Some unit }
    requires work { (work : IsOwnWork (view_of seat.old) unit) × (work.item.root ≡ 0) }
    requires passed { (hand_of seat.old).passed_to ≡ 0 }
    ensures same { IsSameSeat seat.old seat.new }
    ensures one { IsPassOf words.now seat.new }
    ensures passed { (hand_of seat.new).passed_to ≡ 0 }
    ensures open_unit { (hand_of seat.new).open_unit ≡ Some unit }
    ensures drafts { (length (hand_of seat.new).drafts ≡ 1) × (first_id (hand_of seat.new).drafts ≡ row) }
    ensures work { IsOwnWork (view_of seat.new) unit }
{
    words.store_draft_body(seat, row, [0, 10, 20, 30]);
    words.store_draft_head(seat, row, 15, 0, unit);
}

/// An output is written before its unit commits, and another pass can read its head. It is born where the
/// word of the unit that its head names says so: in the exchange on that word.
#[test]
fn output_born_at_exchange(rt: HostRuntime) {
    let (words, mut keeper) = small(&rt);
    let mut server = pass(&words, &mut keeper, 0);
    let mut reader = pass(&words, &mut keeper, 1);
    submit(&words, &mut server, 0, [0, 9, 8, 7], 0);
    if !claim(&words, &mut server, 0, 0, 0) {
        assert!(rt; false);
        return;
    }
    draft_reply(&words, &mut server, 1, 0);

    let draft = words.load_head(&mut reader, 1);
    let made_by = words.load_unit(&mut reader, 0);
    assert!(rt;
        draft
            == Head::Filled {
                stage: 15,
                root: 0,
                by: Some(0)
            }
    );
    assert!(rt; made_by == UnitWord::Undecided);

    assert!(rt; words.commit_exchange(&mut server, 0, 1, 1, 0));
    let reply = words.load_head(&mut reader, 1);
    let made_by = words.load_unit(&mut reader, 0);
    assert!(rt; reply == draft);
    assert!(rt; made_by == UnitWord::Committed { first: 1, count: 1 });
}

#[test]
fn head_tells_its_tail(rt: HostRuntime) {
    let (words, mut keeper) = small(&rt);
    let mut client = pass(&words, &mut keeper, 0);
    let mut reader = pass(&words, &mut keeper, 1);
    submit(&words, &mut client, 0, [0, 9, 8, 7], 0);
    submit(&words, &mut client, 1, [0, 9, 8, 7], 1);
    submit(&words, &mut client, 2, [0, 9, 8, 7], 2);

    let found = words.load_tail(&mut reader, 2);
    assert!(rt; found.tail == 2);
    assert!(rt;
        found.tells
            == Head::Filled {
                stage: 1,
                root: 2,
                by: None
            }
    );
    assert!(rt; words.load_tail(&mut reader, 1).tail == 1);
    assert!(rt; words.load_tail(&mut reader, 0).tail == 0);
}

#[test]
fn unit_tells_its_tail(rt: HostRuntime) {
    let (words, mut keeper) = small(&rt);
    let mut server = pass(&words, &mut keeper, 0);
    let mut reader = pass(&words, &mut keeper, 1);
    submit(&words, &mut server, 0, [0, 9, 8, 7], 0);
    submit(&words, &mut server, 1, [0, 9, 8, 7], 1);
    if !claim(&words, &mut server, 0, 0, 0) {
        assert!(rt; false);
        return;
    }
    if !words.commit_exchange(&mut server, 0, 0, 0, 0) {
        assert!(rt; false);
        return;
    }
    if !claim(&words, &mut server, 1, 1, 1) {
        assert!(rt; false);
        return;
    }
    assert!(rt; words.commit_exchange(&mut server, 1, 0, 0, 1));

    let found = words.load_unit_tail(&mut reader, 1);
    assert!(rt; found.tail == 1);
    assert!(rt; found.tells == UnitWord::Committed { first: 0, count: 0 });
    assert!(rt; words.load_unit_tail(&mut reader, 0).tail == 0);
}

/// Whether the row has a client's element of stage 1, and the unit was aborted.
fn shows_aborted(words: &Words, seat: &mut Seat, row: u32, unit: u16) -> bool
    requires own { IsSeatOf words.now seat.old }
    requires one { IsPassOf words.now seat.old }
    requires there { (row < rows_of (table_limits words.now)) × (unit < units_of (table_limits words.now)) }
    ensures same { IsSameSeat seat.old seat.new }
    ensures one { IsPassOf words.now seat.new }
    ensures spare { (hand_of seat.new).spare_unit ≡ (hand_of seat.old).spare_unit }
    ensures open_unit { (hand_of seat.new).open_unit ≡ (hand_of seat.old).open_unit }
    ensures work { result ≡ true → HasWork (seen_by seat.new) row }
    ensures aborted { result ≡ true → end_of (seen_by seat.new) unit ≡ Some Aborted }
{
    if !shows_request(words, seat, row, 0) {
        return false;
    }
    words.load_unit(seat, unit) == UnitWord::Aborted
}

/// Claims the element of the row once more, where its first unit was aborted.
fn claim_again(words: &Words, seat: &mut Seat, row: u32, aborted: u16, unit: u16) -> bool
    requires own { IsSeatOf words.now seat.old }
    requires one { IsPassOf words.now seat.old }
    requires limits { (table_limits words.now).attempts ≡ 2 }
    requires row { row < rows_of (table_limits words.now) }
    requires aborted { (aborted < units_of (table_limits words.now)) × (aborted < 65535) }
    requires next { IsNextUnit (table_limits words.now) (view_of seat.old) unit × (unit < 65535) }
    requires none_open { (hand_of seat.old).open_unit ≡ None }
    ensures same { IsSameSeat seat.old seat.new }
    ensures one { IsPassOf words.now seat.new }
{
    words.choose_unit(seat, unit);
    if !shows_aborted(words, seat, row, aborted) {
        return false;
    }
    let found = Claim::Taken {
        attempt: 1,
        unit: aborted,
        round: 0,
    };
    match words.claim_exchange(seat, row, FoundClaim::of(found), 2, unit) {
        Ok(()) => true,
        Err(_) => false,
    }
}

/// Aborts the unit that holds the element of the row, for the first time that one does.
fn abort_holder(words: &Words, seat: &mut Seat, row: u32, unit: u16) -> bool
    requires own { IsSeatOf words.now seat.old }
    requires one { IsPassOf words.now seat.old }
    requires there { (row < rows_of (table_limits words.now)) × (unit < units_of (table_limits words.now)) }
    requires none_open { (hand_of seat.old).open_unit ≡ None }
    ensures same { IsSameSeat seat.old seat.new }
    ensures one { IsPassOf words.now seat.new }
    ensures work { result ≡ true → HasWork (seen_by seat.new) row }
    ensures aborted { result ≡ true → end_of (seen_by seat.new) unit ≡ Some Aborted }
{
    let held = Claim::Taken {
        attempt: 1,
        unit,
        round: 0,
    };
    if words.load_claim(seat, row).tells != held {
        return false;
    }
    match words.abort_exchange(seat, unit) {
        Ok(()) => shows_aborted(words, seat, row, unit),
        Err(_) => false,
    }
}

/// Tries to kill the element of the row, as if the claim were still that of its first unit. `Some` has the
/// claim that it found instead.
fn kill_as_first_found(words: &Words, seat: &mut Seat, row: u32, unit: u16) -> Option<Claim>
    requires own { IsSeatOf words.now seat.old }
    requires one { IsPassOf words.now seat.old }
    requires limits { (table_limits words.now).attempts ≡ 2 }
    requires there { (row < rows_of (table_limits words.now)) × (unit < 65535) }
    requires work { HasWork (seen_by seat.old) row }
    requires aborted { end_of (seen_by seat.old) unit ≡ Some Aborted }
    ensures same { IsSameSeat seat.old seat.new }
    ensures one { IsPassOf words.now seat.new }
    ensures no_event { IfSome result (λ now. (hand_of seat.new).mine ≡ (hand_of seat.old).mine) }
{
    let found = Claim::Taken {
        attempt: 1,
        unit,
        round: 0,
    };
    match words.kill_exchange(seat, row, FoundClaim::of(found)) {
        Ok(()) => None,
        Err(now) => Some(now.tells),
    }
}

/// A pass aborts the unit that holds an element, another claims the element again, and then the first pass's
/// kill exchange with the old claim fails and adds no event: the element is not killed.
#[test]
fn stale_kill_exchange(rt: HostRuntime) {
    let (words, mut keeper) = small(&rt);
    let mut killer = pass(&words, &mut keeper, 0);
    let mut first = pass(&words, &mut keeper, 1);
    let mut second = pass(&words, &mut keeper, 2);
    submit(&words, &mut killer, 0, [0, 9, 8, 7], 0);
    assert!(rt; claim(&words, &mut first, 0, 0, 2));
    assert!(rt; abort_holder(&words, &mut killer, 0, 2));
    assert!(rt; claim_again(&words, &mut second, 0, 2, 4));
    let second_claim = Claim::Taken {
        attempt: 2,
        unit: 4,
        round: 0,
    };
    assert!(rt; kill_as_first_found(&words, &mut killer, 0, 2) == Some(second_claim));
    assert!(rt; words.load_claim(&mut killer, 0).tells == second_claim);
}
