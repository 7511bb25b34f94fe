//! What the tests of several crates begin with: managers with their passes, recipes and boxed servers.
ghost use Rattle.std.specs.Prelude.{◌≡◌, None, All};
ghost use Rattle.tp_manager.specs.Shown.{IsKeptBy, IsOf};
ghost use Rattle.tp_workers.specs.Free.{IsFreePass};

use arrayvec::ArrayVec;
use std::process::Abort;
use tp_manager::{Keeper, Manager, Pass};
use tp_model::types::Limits;
use tp_server::{
    Act, AmountFrom, EagerServer, KeyFrom, LazyServer, Output, Recipe, Registers, Server,
};

/// A manager with these limits, and the keeper of its passes.
pub(crate) fn manager<R: Abort + AllocGlobal>(rt: &R, limits: Limits) -> (Manager, Keeper)
    ensures { IsKeptBy result.0 result.1 }
{
    Keeper::new(rt.alloc(), limits).expect(rt, "no manager")
}

/// The next pass of the manager.
pub(crate) fn pass<R: Abort>(rt: &R, keeper: &mut Keeper, manager: &Manager) -> Pass
    requires { IsKeptBy manager.now keeper.old }
    ensures kept { IsKeptBy manager.now keeper.new }
    ensures free { IsFreePass manager.now result }
{
    keeper.pass(manager).expect(rt, "no pass")
}

/// The next two passes.
pub(crate) fn two<R: Abort>(rt: &R, keeper: &mut Keeper, manager: &Manager) -> [Pass; 2]
    requires { IsKeptBy manager.now keeper.old }
    ensures kept { IsKeptBy manager.now keeper.new }
    ensures own { All (IsOf manager.now) result }
    ensures free { All (IsFreePass manager.now) result }
{
    let first = pass(rt, keeper, manager);
    let second = pass(rt, keeper, manager);
    [first, second]
}

/// An output with the element's own key, and this amount.
pub(crate) fn output(stage: u8, amount: AmountFrom) -> Output {
    Output {
        stage,
        key: KeyFrom::Same,
        amount,
    }
}

/// A recipe with one register, and at most four outputs.
pub(crate) fn recipe(stage: u8, act: Act, outputs: &[Output]) -> Recipe {
    let mut made = ArrayVec::new();
    for output in outputs {
        let _ = made.try_push(*output);
    }
    Recipe {
        stage,
        registers: 1,
        act,
        word: 1,
        outputs: made,
    }
}

/// One register with this value.
fn register<R: Abort>(rt: &R, value: u64) -> Registers {
    let mut registers = Registers::new(1).expect(rt, "no registers");
    registers.set(0, value);
    registers
}

/// A boxed server that changes its register, which begins with this value, as it prepares.
pub(crate) fn eager<R: Abort + AllocGlobal>(
    rt: &R,
    value: u64,
    recipe: Recipe,
) -> Box<dyn Server + Send>
    ensures { pending result ≡ None }
{
    let server = EagerServer::new(register(rt, value), recipe).expect(rt, "no server");
    Box::new(rt.alloc(), server).expect(rt, "no memory")
}

/// A boxed server that keeps what it will write.
pub(crate) fn lazy<R: Abort + AllocGlobal>(
    rt: &R,
    value: u64,
    recipe: Recipe,
) -> Box<dyn Server + Send>
    ensures { pending result ≡ None }
{
    let server = LazyServer::new(register(rt, value), recipe).expect(rt, "no server");
    Box::new(rt.alloc(), server).expect(rt, "no memory")
}
