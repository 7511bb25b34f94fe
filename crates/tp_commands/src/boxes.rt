//! The boxed servers of a head.
ghost use Rattle.std.specs.Prelude.{◌≡◌, ◌++◌, ◌∷◌, [], None, IfOk, All, map};
ghost use Rattle.tp_server.specs.Behaviour.{behaviour_of};

use std::alloc::AllocError;
use tp_script::ScriptServer;
use tp_server::{EagerServer, LazyServer, Server};

/// Puts one more boxed server behind the others.
pub fn put(
    boxes: &mut Vec<Box<dyn Server + Send>>,
    made: Box<dyn Server + Send>,
) -> Result<(), AllocError>
    ensures behaviours { IfOk result (λ _. map (λ server. behaviour server) boxes.new.items
        ≡ map (λ server. behaviour server) boxes.old.items ++ behaviour made ∷ []) }
    ensures registers { IfOk result (λ _. map (λ server. registers server) boxes.new.items
        ≡ map (λ server. registers server) boxes.old.items ++ registers made ∷ []) }
    ensures clear { IfOk result (λ _. All (λ server. pending server ≡ None) boxes.old.items
        → pending made ≡ None
        → All (λ server. pending server ≡ None) boxes.new.items) }
{
    boxes.push(made)?;
    Ok(())
}

/// A server that changes its registers as it prepares.
pub fn eager(server: &ScriptServer) -> Result<EagerServer, AllocError>
    ensures behaviour { IfOk result (λ made.
        ⟦<EagerServer as Server>⟧.behaviour made ≡ behaviour_of server.now.recipe) }
    ensures registers { IfOk result (λ made.
        ⟦<EagerServer as Server>⟧.registers made ≡ server.now.registers) }
    ensures unprepared { IfOk result (λ made. ⟦<EagerServer as Server>⟧.pending made ≡ None) }
{
    match EagerServer::new(server.registers.clone()?, server.recipe.clone()?) {
        Ok(made) => Ok(made),
        Err(_) => unreachable!(),
    }
}

/// A server that keeps what it will write.
pub fn lazy(server: &ScriptServer) -> Result<LazyServer, AllocError>
    ensures behaviour { IfOk result (λ made.
        ⟦<LazyServer as Server>⟧.behaviour made ≡ behaviour_of server.now.recipe) }
    ensures registers { IfOk result (λ made. ⟦<LazyServer as Server>⟧.registers made ≡ server.now.registers) }
    ensures unprepared { IfOk result (λ made. ⟦<LazyServer as Server>⟧.pending made ≡ None) }
{
    match LazyServer::new(server.registers.clone()?, server.recipe.clone()?) {
        Ok(made) => Ok(made),
        Err(_) => unreachable!(),
    }
}
