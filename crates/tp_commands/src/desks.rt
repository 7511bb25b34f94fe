//! Commands on one server, at its desk, which is there until it is dropped.
ghost use Rattle.std.specs.Prelude.{◌≡◌, ◌<◌, All, IfOk, IfSome, MatchOption, None, length, slice_get};
ghost use Rattle.std.specs.Prelude.{string_bytes};
ghost use Rattle.std.specs.Prelude.{true};
ghost use Rattle.tp_manager.specs.Shown.{IsOf};
ghost use Rattle.tp_desk.specs.Steady.{IsSameDesk, SteadyDesk, shown};
ghost use Rattle.tp_commands.specs.Acting.{Does, DoesAt, DoesIn, DropsAt, TellsAbort, TellsClaim};
ghost use Rattle.tp_commands.specs.Acting.{TellsCommit};
ghost use Rattle.tp_commands.specs.Acting.{TellsDrop, TellsPrepare, TellsTake, TellsTurn, desk_shown};
ghost use Rattle.tp_commands.specs.Acting.{StaysIn, TurnsAt, TurnsIn, place_of_desk, place_shown};
ghost use Rattle.tp_commands.specs.Acting.{places_shown};
ghost use Rattle.tp_commands.specs.Places.{AllLie, Lies, first_of, firsts, is_free_at};
ghost use Rattle.tp_workers.specs.Desks.{TakesTurn};
ghost use Rattle.tp_report.specs.Answer.{line, named_text};
ghost use Rattle.tp_report.specs.Lines.{IsLine};
ghost use Rattle.tp_report.specs.declared.answer.ServerAnswer.{ServerAnswer};
ghost use Rattle.tp_report.specs.declared.answer.ServerAnswer.TheVariants as told;

use crate::lines::server_line;
use crate::means::Means;
use crate::place::Place;
use std::alloc::AllocError;
use std::string::String;
use tp_desk::{Desk, Order, Turned};
use tp_manager::{Manager, Pass};
use tp_model::types::{Claimed, Ended, Refusal, Work};
use tp_report::ServerAnswer;
use tp_script::DeskAct;
use tp_server::Server;

/// Has the desk of a server do what is asked, and answers the line of its answer.
pub fn desk_line(
    means: &Means,
    passes: &mut [Pass],
    servers: &mut [Box<dyn Server + Send>],
    places: &mut [Place],
    server: usize,
    act: DeskAct,
) -> Result<String, AllocError>
    requires own { All (IsOf means.now.manager.now) passes.old }
    requires lie { AllLie behaviour registers pending passes.old servers.old places.old }
    requires as_many { length places.old ≡ length means.now.head.now.servers.items }
    requires in_range { server < length means.now.head.now.servers.items }
    ensures own { All (IsOf means.now.manager.now) passes.new }
    ensures lie { AllLie behaviour registers pending passes.new servers.new places.new }
    ensures as_many { length places.new ≡ length places.old }
    ensures began { firsts places.new ≡ firsts places.old }
    ensures tells { IfOk result (λ text. (answer : ServerAnswer)
        × DoesIn means.now.manager.now.limits act server
        (places_shown behaviour registers pending passes.old servers.old places.old) answer
        (places_shown behaviour registers pending passes.new servers.new places.new)
        × IfSome (slice_get means.now.head.now.servers.items server)
        (λ it. string_bytes text ≡ line (named_text (string_bytes it.name) answer))) }
    ensures line { IfOk result (λ text. IsLine (string_bytes text)) }
{
    let answer = act_in(means.manager, passes, servers, places, server, act);
    server_line(means.alloc, means.head.servers.as_slice(), server, answer)
}

/// Has the desk at one of the places take a turn whose claim is in this order, or answers `None` where it
/// isn't free.
pub fn turn_in(
    manager: &Manager,
    passes: &mut [Pass],
    servers: &mut [Box<dyn Server + Send>],
    places: &mut [Place],
    at: usize,
    order: Order,
) -> Option<Turned>
    requires own { All (IsOf manager.now) passes.old }
    requires lie { AllLie behaviour registers pending passes.old servers.old places.old }
    requires within { at < length places.old }
    ensures own { All (IsOf manager.now) passes.new }
    ensures lie { AllLie behaviour registers pending passes.new servers.new places.new }
    ensures as_many { length places.new ≡ length places.old }
    ensures began { firsts places.new ≡ firsts places.old }
    ensures turns { MatchOption result
        (StaysIn at (places_shown behaviour registers pending passes.old servers.old places.old)
        (places_shown behaviour registers pending passes.new servers.new places.new))
        (λ turned. TurnsIn order manager.now.limits at
        (places_shown behaviour registers pending passes.old servers.old places.old) turned
        (places_shown behaviour registers pending passes.new servers.new places.new)) }
{
    if !places[at].is_free() {
        return None;
    }
    let turned = turn_at(
        manager,
        &mut passes[at],
        &mut servers[at],
        &mut places[at],
        order,
    );
    Some(turned)
}

/// Has the desk at a free place take a turn: it goes on with what it laid aside, which is nothing in hand.
fn turn_at(
    manager: &Manager,
    pass: &mut Pass,
    server: &mut Box<dyn Server + Send>,
    place: &mut Place,
    order: Order,
) -> Turned
    requires own { IsOf manager.now pass.old }
    requires lies { Lies behaviour registers pending pass.old server.old place.old.aside }
    requires free { is_free_at place.old ≡ true }
    ensures own { IsOf manager.now pass.new }
    ensures lies { Lies behaviour registers pending pass.new server.new place.new.aside }
    ensures began { first_of place.new ≡ first_of place.old }
    ensures turns { TurnsAt order manager.now.limits result
        (place_shown behaviour registers pending pass.old server.old place.old)
        (place_shown behaviour registers pending pass.new server.new place.new) }
{
    let Some(aside) = place.aside.take() else {
        unreachable!();
    };
    let mut desk = Desk::resume(manager, pass, server, aside);
    let turned = turn_by(&mut desk, order);
    place.aside = Some(desk.lay_aside());
    turned
}

/// A turn whose claim is in this order.
fn turn_by(desk: &mut Desk, order: Order) -> Turned
    requires steady { SteadyDesk (shown behaviour) (shown registers) (shown pending) desk.old }
    requires free { desk.old.work ≡ None }
    ensures same { IsSameDesk desk.old desk.new }
    ensures steady { SteadyDesk (shown behaviour) (shown registers) (shown pending) desk.new }
    ensures turn { TakesTurn order desk.old.manager.now.limits
        (place_of_desk (desk_shown behaviour registers pending desk.old)) result
        (place_of_desk (desk_shown behaviour registers pending desk.new)) }
    ensures free { desk.new.work ≡ None }
{
    desk.turn_by(order)
}

/// Has the desk at one of the places do what is asked.
fn act_in(
    manager: &Manager,
    passes: &mut [Pass],
    servers: &mut [Box<dyn Server + Send>],
    places: &mut [Place],
    at: usize,
    act: DeskAct,
) -> ServerAnswer
    requires own { All (IsOf manager.now) passes.old }
    requires lie { AllLie behaviour registers pending passes.old servers.old places.old }
    requires within { at < length places.old }
    ensures own { All (IsOf manager.now) passes.new }
    ensures lie { AllLie behaviour registers pending passes.new servers.new places.new }
    ensures as_many { length places.new ≡ length places.old }
    ensures began { firsts places.new ≡ firsts places.old }
    ensures tells { DoesIn manager.now.limits act at
        (places_shown behaviour registers pending passes.old servers.old places.old) result
        (places_shown behaviour registers pending passes.new servers.new places.new) }
{
    act_at(
        manager,
        &mut passes[at],
        &mut servers[at],
        &mut places[at],
        act,
    )
}

/// Has the desk at a place do what is asked, unless it was dropped: it goes on with what it laid aside, and
/// lays aside what it has in hand then.
pub(crate) fn act_at(
    manager: &Manager,
    pass: &mut Pass,
    server: &mut Box<dyn Server + Send>,
    place: &mut Place,
    act: DeskAct,
) -> ServerAnswer
    requires own { IsOf manager.now pass.old }
    requires lies { Lies behaviour registers pending pass.old server.old place.old.aside }
    ensures own { IsOf manager.now pass.new }
    ensures lies { Lies behaviour registers pending pass.new server.new place.new.aside }
    ensures began { first_of place.new ≡ first_of place.old }
    ensures tells { DoesAt manager.now.limits act
        (place_shown behaviour registers pending pass.old server.old place.old) result
        (place_shown behaviour registers pending pass.new server.new place.new) }
{
    if place.is_dropped {
        return ServerAnswer::Ended;
    }
    if act == DeskAct::Drop {
        place.is_dropped = true;
    }
    let Some(aside) = place.aside.take() else {
        unreachable!();
    };
    let mut desk = Desk::resume(manager, pass, server, aside);
    let answer = act_by(&mut desk, act);
    place.aside = Some(desk.lay_aside());
    answer
}

/// Has the desk do what is asked.
fn act_by(desk: &mut Desk, act: DeskAct) -> ServerAnswer
    requires steady { SteadyDesk (shown behaviour) (shown registers) (shown pending) desk.old }
    ensures same { IsSameDesk desk.old desk.new }
    ensures steady { SteadyDesk (shown behaviour) (shown registers) (shown pending) desk.new }
    ensures tells { Does desk.old.manager.now.limits act (desk_shown behaviour registers pending desk.old)
        result
        (desk_shown behaviour registers pending desk.new) }
{
    match act {
        DeskAct::Turn => turn(desk),
        DeskAct::Claim => claim(desk, Order::LeastFirst),
        DeskAct::Next => claim(desk, Order::InTurn),
        DeskAct::Take { id } => take(desk, id),
        DeskAct::Prepare => prepare(desk),
        DeskAct::Commit => commit(desk),
        DeskAct::Abort => abort(desk),
        DeskAct::Drop => drop_desk(desk),
    }
}

/// `turn NAME`
fn turn(desk: &mut Desk) -> ServerAnswer
    requires steady { SteadyDesk (shown behaviour) (shown registers) (shown pending) desk.old }
    ensures same { IsSameDesk desk.old desk.new }
    ensures steady { SteadyDesk (shown behaviour) (shown registers) (shown pending) desk.new }
    ensures tells { TellsTurn desk.old.manager.now.limits (desk_shown behaviour registers pending desk.old)
        result
        (desk_shown behaviour registers pending desk.new) }
{
    if desk.has_open() {
        return ServerAnswer::Busy;
    }
    ServerAnswer::Turned(desk.turn())
}

/// `claim NAME` or `next NAME`
fn claim(desk: &mut Desk, order: Order) -> ServerAnswer
    requires steady { SteadyDesk (shown behaviour) (shown registers) (shown pending) desk.old }
    ensures same { IsSameDesk desk.old desk.new }
    ensures steady { SteadyDesk (shown behaviour) (shown registers) (shown pending) desk.new }
    ensures tells { TellsClaim order desk.old.manager.now.limits
        (desk_shown behaviour registers pending desk.old) result
        (desk_shown behaviour registers pending desk.new) }
{
    if desk.has_open() {
        return ServerAnswer::Busy;
    }
    match desk.claim_by(order) {
        Claimed::Work(work) => took(&work),
        Claimed::Idle => ServerAnswer::Turned(Turned::Idle),
        Claimed::NoUnit => ServerAnswer::Turned(Turned::NoUnit),
    }
}

/// The answer of a claim that took this.
fn took(work: &Work) -> ServerAnswer
    ensures { result ≡ told.Work work.now.element.id work.now.unit work.now.attempt }
{
    ServerAnswer::Work {
        element: work.element.id,
        unit: work.unit,
        attempt: work.attempt,
    }
}

/// `take NAME ID`
fn take(desk: &mut Desk, id: u32) -> ServerAnswer
    requires steady { SteadyDesk (shown behaviour) (shown registers) (shown pending) desk.old }
    ensures same { IsSameDesk desk.old desk.new }
    ensures steady { SteadyDesk (shown behaviour) (shown registers) (shown pending) desk.new }
    ensures tells { TellsTake desk.old.manager.now.limits id (desk_shown behaviour registers pending desk.old)
        result
        (desk_shown behaviour registers pending desk.new) }
{
    if desk.has_open() {
        return ServerAnswer::Busy;
    }
    match desk.claim_id(id) {
        Ok(work) => took(&work),
        Err(Refusal::NoUnit) => ServerAnswer::Turned(Turned::NoUnit),
        Err(why) => ServerAnswer::NotTaken { element: id, why },
    }
}

/// `prepare NAME`
fn prepare(desk: &mut Desk) -> ServerAnswer
    requires steady { SteadyDesk (shown behaviour) (shown registers) (shown pending) desk.old }
    ensures same { IsSameDesk desk.old desk.new }
    ensures steady { SteadyDesk (shown behaviour) (shown registers) (shown pending) desk.new }
    ensures tells { TellsPrepare desk.old.manager.now.limits (desk_shown behaviour registers pending desk.old)
        result
        (desk_shown behaviour registers pending desk.new) }
{
    let Some(work) = desk.in_hand() else {
        return ServerAnswer::NoneOpen;
    };
    if desk.is_prepared() {
        return ServerAnswer::Busy;
    }
    match desk.prepare() {
        Ok(()) => ServerAnswer::Ready,
        Err(why) => ServerAnswer::Turned(Turned::Refused {
            element: work.element.id,
            why,
        }),
    }
}

/// `commit NAME`: work that isn't prepared is prepared first.
fn commit(desk: &mut Desk) -> ServerAnswer
    requires steady { SteadyDesk (shown behaviour) (shown registers) (shown pending) desk.old }
    ensures same { IsSameDesk desk.old desk.new }
    ensures steady { SteadyDesk (shown behaviour) (shown registers) (shown pending) desk.new }
    ensures tells { TellsCommit desk.old.manager.now.limits (desk_shown behaviour registers pending desk.old)
        result
        (desk_shown behaviour registers pending desk.new) }
{
    let Some(work) = desk.in_hand() else {
        return ServerAnswer::NoneOpen;
    };
    if !desk.is_prepared() {
        match desk.prepare() {
            Ok(()) => {}
            Err(why) => {
                return ServerAnswer::Turned(Turned::Refused {
                    element: work.element.id,
                    why,
                });
            }
        }
    }
    ServerAnswer::Turned(Turned::settled(&work, desk.commit()))
}

/// `abort NAME`
fn abort(desk: &mut Desk) -> ServerAnswer
    requires steady { SteadyDesk (shown behaviour) (shown registers) (shown pending) desk.old }
    ensures same { IsSameDesk desk.old desk.new }
    ensures steady { SteadyDesk (shown behaviour) (shown registers) (shown pending) desk.new }
    ensures tells { TellsAbort (desk_shown behaviour registers pending desk.old) result
        (desk_shown behaviour registers pending desk.new) }
{
    let Some(work) = desk.in_hand() else {
        return ServerAnswer::NoneOpen;
    };
    let element = work.element.id;
    match desk.abort() {
        Ended::Aborted => ServerAnswer::Aborted { element },
        Ended::AlreadyAborted => ServerAnswer::AlreadyAborted { element },
    }
}

/// `drop NAME`
fn drop_desk(desk: &mut Desk) -> ServerAnswer
    requires steady { SteadyDesk (shown behaviour) (shown registers) (shown pending) desk.old }
    ensures same { IsSameDesk desk.old desk.new }
    ensures steady { SteadyDesk (shown behaviour) (shown registers) (shown pending) desk.new }
    ensures tells { TellsDrop (desk_shown behaviour registers pending desk.old) result
        (desk_shown behaviour registers pending desk.new) }
{
    give_up(desk);
    ServerAnswer::Dropped
}

/// What is in hand is given up, as by a drop of the desk.
pub(crate) fn give_up(desk: &mut Desk)
    requires steady { SteadyDesk (shown behaviour) (shown registers) (shown pending) desk.old }
    ensures same { IsSameDesk desk.old desk.new }
    ensures steady { SteadyDesk (shown behaviour) (shown registers) (shown pending) desk.new }
    ensures gives_up { DropsAt (desk_shown behaviour registers pending desk.old)
        (desk_shown behaviour registers pending desk.new) }
{
    if desk.has_open() {
        let _ = desk.abort();
    }
}
