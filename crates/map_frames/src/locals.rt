//! Types as locals (JVMS 4.10.1.4): behind a Long comes Top, and Top fills them up.

ghost use Rattle.std.specs.Prelude.{◌≡◌, ◌++◌, ◌-◌, ◌≤◌, ◌∷◌, [], length, replicate, OnOk};
ghost use Rattle.world_model.specs.World.{World as ModelWorld};
ghost use Rattle.typing_model.specs.DescriptorFrame.{as_locals};
ghost use Rattle.type_rules.specs.Types.{type_of, IsKnownType};
ghost use Rattle.type_rules.specs.Frames.{types_of, AreKnown};

use jv_types::{List, NoMemory};
use type_rules::VerificationType;

/// Adds a type, which takes two places where it is a Long.
pub fn push_local(
    locals: &mut List<VerificationType>,
    there: VerificationType,
) -> Result<(), NoMemory>
    ensures same { (world : ModelWorld) → OnOk result (types_of world locals.new.items
        ≡ types_of world locals.old.items ++ as_locals (type_of world there ∷ [])) }
    ensures known { (world : ModelWorld) → AreKnown world locals.old.items
        → IsKnownType world there → OnOk result (AreKnown world locals.new.items) }
{
    locals.push(there)?;
    match there {
        VerificationType::Long => locals.push(VerificationType::Top),
        _ => Ok(()),
    }
}

/// How many are added at once.
const MOST: u32 = 32;

const TOPS: [VerificationType; 32] = [VerificationType::Top; 32];

/// Adds so many Tops.
fn add_tops(locals: &mut List<VerificationType>, count: u32) -> Result<(), NoMemory>
    requires { count ≤ 32 }
    ensures { OnOk result (locals.new.items
        ≡ locals.old.items ++ replicate count VerificationType.Top) }
{
    locals.append(&TOPS[..count as usize])
}

/// Fills locals up with Top.
pub fn fill(locals: &mut List<VerificationType>, max_locals: u16) -> Result<(), NoMemory>
    ensures { OnOk result (locals.new.items ≡ locals.old.items
        ++ replicate (max_locals - length locals.old.items) VerificationType.Top) }
{
    while locals.len() < u32::from(max_locals) {
        let left = u32::from(max_locals) - locals.len();
        add_tops(locals, left.min(MOST))?;
    }
    Ok(())
}
