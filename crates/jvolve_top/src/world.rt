//! The world of a program's classes: linked, and verified.

ghost use Rattle.std.specs.Prelude.{◌≡◌, IfOk, None};
ghost use Rattle.world_model.specs.BootTable.{boot_table};
ghost use Rattle.link_model.specs.Link.{linked};
ghost use Rattle.link_model.specs.WorldOf.{world_of};
ghost use Rattle.typing_model.specs.FailingPlace.{world_failure};
ghost use Rattle.load_model.specs.Loading.{placed};
ghost use Rattle.run_model.specs.LoadProgram.{verified, verified_world};
ghost use Rattle.linked_laws.specs.Worlds.{IsLinkedWorld};
ghost use Rattle.class_loader.specs.Items.{classes_in, AreRead};
ghost use Rattle.class_loader.specs.Placed.{IsPlaced};
ghost use Rattle.stackmap_verify.specs.Outcome.{Tells};
ghost use Rattle.jvolve_top.specs.Programs.{program_stop, StopsFor};

use boot_classes::boot_table;
use class_linker::{LinkError, link};
use class_loader::Stop;
use class_world::World;
use jv_types::{Cause, List, Loaded, Text};
use stackmap_verify::{Verified, VerifyError, verify_world};
use std::alloc::Global;

/// A refusal of the whole program.
pub(crate) fn refused(cause: Cause) -> Stop
    ensures { result ≡ program_stop cause }
{
    Stop::Refused {
        item: 0,
        sub: 0,
        cause,
    }
}

/// The world that the classes of a program link to on the boot classes, to be started at the class
/// `main`, or the first refusal.
fn link_classes(alloc: Global, main: &Text, classes: &List<Loaded>) -> Result<World, Stop>
    requires { AreRead classes.now }
    ensures placed { IsPlaced (λ world. world) result
        (placed 0 0 (linked boot_table (classes_in classes.now) main.now.items)) }
    ensures linked { IfOk result IsLinkedWorld }
    ensures own { IfOk result (λ world. world ≡ world_of boot_table (classes_in classes.now)) }
{
    let boot = boot_table(alloc)?;
    match link(alloc, &boot, classes, main) {
        Ok(world) => Ok(world),
        Err(LinkError::Refused(cause)) => Err(refused(cause)),
        Err(LinkError::NoMemory) => Err(Stop::NoMemory),
    }
}

/// Why a program is refused whose world isn't verified.
fn verify_stop(error: VerifyError) -> Stop
    ensures { (failure : _) → Tells failure error → StopsFor failure result }
{
    match error {
        VerifyError::NotVerified {
            class,
            method,
            descriptor,
            pc,
            rule,
        } => refused(Cause::NotVerified {
            class,
            name: method,
            descriptor,
            pc,
            rule,
        }),
        VerifyError::NoMemory => Stop::NoMemory,
    }
}

/// A linked world, where each method of it is well typed, or the first that isn't.
fn verify(alloc: Global, world: World) -> Result<Verified, Stop>
    requires { IsLinkedWorld world }
    ensures placed { IsPlaced (λ world. world) result (placed 0 0 (verified world)) }
    ensures same { IfOk result (λ verified. verified ≡ world) }
    ensures typed { IfOk result (λ verified. world_failure verified ≡ None) }
{
    match verify_world(alloc, world) {
        Ok(verified) => Ok(verified),
        Err((_, error)) => Err(verify_stop(error)),
    }
}

/// The world of a program's classes, to be started at the class `main`, where they link and each
/// method of them is well typed; or the first refusal.
pub(crate) fn verified_world(
    alloc: Global,
    main: &Text,
    classes: &List<Loaded>,
) -> Result<Verified, Stop>
    requires { AreRead classes.now }
    ensures placed { IsPlaced (λ world. world) result
        (verified_world main.now.items (classes_in classes.now)) }
    ensures own { IfOk result (λ world. world ≡ world_of boot_table (classes_in classes.now)) }
    ensures typed { IfOk result (λ world. world_failure world ≡ None) }
{
    let world = link_classes(alloc, main, classes)?;
    verify(alloc, world)
}
