//! Verified worlds.

ghost use Rattle.std.specs.Prelude.{◌≡◌};
ghost use Rattle.stackmap_verify.specs.Verified.{IsVerified};

use class_world::World;
use std::marker::Model;

/// A linked world of which every method is well typed (JVMS 4.10.1). Only `verify_world` makes one.
/// Contracts see the definitions' world.
#[derive(Drop)]
pub struct Verified {
    world: World,
}

impl Model for Verified {
    ghost use Rattle.world_model.specs.World.{World as ModelWorld};
    ghost use Rattle.stackmap_verify.specs.Verified.{IsVerified};

    ghost Value = { ModelWorld };

    ghost view = { λ it. it.world };

    ghost invariant = { λ it. IsVerified it.world };
}

impl Verified {
    /// The world, which is linked and well typed.
    pub fn world(&self) -> &World
        ensures same { result.now ≡ self.now }
        ensures verified { IsVerified self.now }
    {
        &self.world
    }

    /// The world itself, which is linked and well typed.
    pub fn into_world(self) -> World
        ensures same { result ≡ self }
        ensures verified { IsVerified self }
    {
        self.world
    }

    /// A world that is linked and well typed.
    pub(crate) fn of(world: World) -> Verified
        requires { IsVerified world }
        ensures { result ≡ world }
    {
        Verified { world }
    }
}
