//! Steps in code, one after another.

ghost use Rattle.std.specs.Prelude.{◌≡◌, ◌+◌, ◌<◌, ◌^◌, length};
ghost use Rattle.local_runs.specs.Places.{step_of, frame_at, IsIn};
ghost use Rattle.local_runs.specs.Runs.{NeverWrong, IsRun, first_with};

use crate::step::{Place, Stepped, step_at};
use jv_types::{CodeBody, Const};
use jv_values::Value;

/// What steps came to.
#[derive(Clone, Copy, Debug, PartialEq, Eq)]
pub struct Ran {
    /// How many there were.
    pub steps: u32,
    /// Where the frame is now.
    pub place: Place,
    /// The least number of steps after which a safe point was reached.
    pub first: Option<u32>,
    /// Whether the last step reached one.
    pub mark: bool,
}

impl Ran {
    /// With one step more.
    fn and(self, stepped: Stepped) -> Ran
        requires { self.steps + 1 < 2 ^ 32 }
        ensures { result ≡ record {
          steps = self.steps + 1;
          place = stepped.place;
          first = first_with self.first stepped.mark (self.steps + 1);
          mark = stepped.mark;
        } }
    {
        let steps = self.steps + 1;
        let first = match self.first {
            None if stepped.mark => Some(steps),
            first => first,
        };
        Ran {
            steps,
            place: stepped.place,
            first,
            mark: stepped.mark,
        }
    }
}

/// Makes local steps of the frame in place until the next isn't local or `max` are made.
pub fn run(
    body: &CodeBody,
    pool: &[Const],
    place: Place,
    locals: &mut [Value],
    stack: &mut [Value],
    max: u32,
) -> Ran
    requires at { IsIn body.now place }
    requires room { length stack.old ≡ body.now.max_stack }
    requires right { NeverWrong (step_of pool.now body.now)
        (frame_at body.now place locals.old stack.old) }
    ensures at { IsIn body.now result.place }
    ensures ran { IsRun (step_of pool.now body.now)
        (frame_at body.now place locals.old stack.old)
        (frame_at body.now result.place locals.new stack.new) max result }
{
    let mut ran = Ran {
        steps: 0,
        place,
        first: None,
        mark: false,
    };
    for _made in 0..max {
        match step_at(body, pool, ran.place, locals, stack) {
            Some(stepped) => ran = ran.and(stepped),
            None => return ran,
        }
    }
    ran
}
