//! What the lines of a manifest have brought so far.

ghost use Rattle.manifest_reader.specs.Items.{line_of};
ghost use Rattle.manifest_reader.specs.Statements.{IsSeen, SeesLine, mains};
ghost use Rattle.std.specs.Prelude.{◌≡◌, []};

use crate::line::ManifestLine;
use jv_types::LineKind;

/// The most class items of a manifest.
const MOST_CLASSES: u32 = 1024;

/// The most updates of a manifest.
const MOST_UPDATES: u32 = 16;

/// What the lines so far have brought, as far as the next ones depend on it.
#[derive(Clone, Copy, Debug)]
pub(crate) struct Seen<'a> {
    /// The main class.
    pub(crate) main: Option<&'a str>,
    /// How many class items there are.
    pub(crate) classes: u32,
    /// How many updates.
    pub(crate) updates: u32,
}

/// No line yet.
pub(crate) fn nothing_seen<'a>() -> Seen<'a>
    ensures seen { IsSeen [] result }
    ensures mains { mains result ≡ [] }
{
    Seen {
        main: None,
        classes: 0,
        updates: 0,
    }
}

/// What the lines so far and the next one have brought, or what is wrong with that one behind them.
pub(crate) fn seen_with<'a>(seen: Seen<'a>, line: ManifestLine<'a>) -> Result<Seen<'a>, LineKind>
    ensures { SeesLine seen.entry (line_of line.entry) result }
{
    match line {
        ManifestLine::Main(class) => {
            if seen.main.is_some() {
                return Err(LineKind::Main);
            }
            let main = Some(class);
            Ok(Seen { main, ..seen })
        }
        ManifestLine::Class(_) => {
            if seen.classes >= MOST_CLASSES {
                return Err(LineKind::Many);
            }
            let classes = seen.classes + 1;
            Ok(Seen { classes, ..seen })
        }
        ManifestLine::UpdateInFile { .. } | ManifestLine::UpdateInLines { .. } => {
            if seen.updates >= MOST_UPDATES {
                return Err(LineKind::Many);
            }
            let updates = seen.updates + 1;
            Ok(Seen { updates, ..seen })
        }
    }
}
