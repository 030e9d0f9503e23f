//! Plan files read as steps.

ghost use Rattle.std.specs.Prelude.{◌≡◌, ◌^◌, ◌≤◌, length};
ghost use Rattle.plan_text.specs.Plans.{IsAnswer};

use crate::lines::{first_line, read_line};
use crate::step::{PlanFault, Step};
use num_ends::List;
use std::alloc::Global;

/// Reads a plan, which has a step a line, in order. The text has at most 2^30 bytes.
///
/// A step is written `(move a b)`: the names of the action and of its objects between round brackets. Spaces, tabs and
/// carriage returns may surround each word, number and mark, and part the words; capitals count as small letters.
/// Planners that know time print `0.5 :` in front and `[1]` behind. Such numbers, of digits and perhaps a point with
/// digits on both sides, are passed over, and so are empty lines and comments, lines that begin with `;`. The text
/// need not end with a line feed. `BadLine` tells the first line that is none of these, where 1 is the first of the
/// text.
pub fn read_plan(alloc: Global, bytes: &[u8]) -> Result<List<Step>, PlanFault>
    requires { length bytes.now ≤ 2 ^ 30 }
    ensures { IsAnswer bytes.now result }
{
    let mut steps = List::new(alloc);
    let mut number: u32 = 1;
    let mut left = Some(bytes);
    while let Some(text) = left {
        let (line, behind) = first_line(text);
        if !read_line(alloc, line, &mut steps)? {
            return Err(PlanFault::BadLine(number));
        }
        number += 1;
        left = behind;
    }
    Ok(steps)
}
