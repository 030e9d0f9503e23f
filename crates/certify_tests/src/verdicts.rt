//! Certificates that are certified or not, with the line and the reason that are told.

use crate::tasks::{AREAS, CELLS, CROWD, LAMPS, NOTHING, Pair, SCALES, SPLITS, STAIRS, TANK};
use certify_command::answer;
use num_ends::NoMemory;
use std::alloc::Global;
use std::test::Fail;

/// The most bytes of a text of a row.
const MOST: usize = 2048;

// The task, the text of the certificate, and the status and the line of the answer.
static VERDICTS: [(Pair, &str, u8, &str); 38] = [
    // certified, in both versions
    (
        TANK,
        "UNSOLVABLE 1\nbox (water)=(-inf,0]\nend\n",
        0,
        "CERTIFIED\n",
    ),
    (
        TANK,
        "UNSOLVABLE 2\nbox (water)=(-inf,0]\nend\n",
        0,
        "CERTIFIED\n",
    ),
    (
        TANK,
        "UNSOLVABLE 2\nbox (water)=(-inf,1)\nend\n",
        0,
        "CERTIFIED\n",
    ),
    (
        TANK,
        "UNSOLVABLE 2\nbox (water)=(-inf,-1]\nstate (water)=0\nend\n",
        0,
        "CERTIFIED\n",
    ),
    (
        STAIRS,
        "UNSOLVABLE 1\nbox (floor)=[0,3)\nend\n",
        0,
        "CERTIFIED\n",
    ),
    (
        STAIRS,
        "UNSOLVABLE 2\nstate (floor)=0\nstate (floor)=1\nstate (floor)=2\nend\n",
        0,
        "CERTIFIED\n",
    ),
    // in any order, repeated, with numbers in any form
    (
        STAIRS,
        "UNSOLVABLE 1\nbox (floor)=[2.0,2.]\nbox (floor)=[2,002]\nstate (floor)=1\nstate (floor)=-0\nstate (floor)=01.0\nend\n",
        0,
        "CERTIFIED\n",
    ),
    // with facts, of which the second version need not speak
    (
        LAMPS,
        "UNSOLVABLE 1\nbox (lit a)=any (lit b)=false (wired a)=any (wired b)=false\nend\n",
        0,
        "CERTIFIED\n",
    ),
    (
        LAMPS,
        "UNSOLVABLE 2\nbox (lit b)=false (wired b)=false\nend\n",
        0,
        "CERTIFIED\n",
    ),
    (
        LAMPS,
        "UNSOLVABLE 2\nbox (lit a)=any (lit b)=false (wired b)=false\nend\n",
        0,
        "CERTIFIED\n",
    ),
    (
        SCALES,
        "UNSOLVABLE 2\nbox (level)=false (left)=(-inf,1.5]\nstate (level)=true (left)=0 (right)=0.250\nend\n",
        0,
        "CERTIFIED\n",
    ),
    (NOTHING, "UNSOLVABLE 2\nbox\nstate\nend\n", 0, "CERTIFIED\n"),
    // numbers that leave their range in a box alone
    (
        CELLS,
        "UNSOLVABLE 2\nbox (mass)=[0,inf)\nend\n",
        0,
        "CERTIFIED\n",
    ),
    // a box that an action leaves
    (
        TANK,
        "UNSOLVABLE 1\nbox (water)=[-1,0]\nend\n",
        1,
        "NOT CERTIFIED 2 unmet (leak)\n",
    ),
    (
        STAIRS,
        "UNSOLVABLE 2\nbox (floor)=[0,2]\nend\n",
        1,
        "NOT CERTIFIED 2 unmet (climb)\n",
    ),
    (
        LAMPS,
        "UNSOLVABLE 2\nbox (lit b)=false\nend\n",
        1,
        "NOT CERTIFIED 2 unmet (light b)\n",
    ),
    (
        LAMPS,
        "UNSOLVABLE 2\nbox (lit a)=false (lit b)=false (wired b)=false\nend\n",
        1,
        "NOT CERTIFIED 2 unmet (light a)\n",
    ),
    // the last action alone
    (
        SPLITS,
        "UNSOLVABLE 2\nbox (mass)=[0,0]\nbox (mass)=[0,1]\nend\n",
        1,
        "NOT CERTIFIED 3 unmet (grow)\n",
    ),
    (
        LAMPS,
        "UNSOLVABLE 2\nbox (lit b)=false (wired a)=true (wired b)=false\nend\n",
        1,
        "NOT CERTIFIED 2 unmet (cut a)\n",
    ),
    // an action before the goal
    (
        TANK,
        "UNSOLVABLE 2\nbox (water)=[1,2]\nend\n",
        1,
        "NOT CERTIFIED 2 unmet (leak)\n",
    ),
    // a box in which the goal may hold
    (
        TANK,
        "UNSOLVABLE 2\nbox (water)=(-inf,1]\nend\n",
        1,
        "NOT CERTIFIED 2 maygoal\n",
    ),
    (
        TANK,
        "UNSOLVABLE 2\nbox (water)=(-inf,0]\nbox\nend\n",
        1,
        "NOT CERTIFIED 3 maygoal\n",
    ),
    // a state in which the goal holds
    (
        STAIRS,
        "UNSOLVABLE 2\nbox (floor)=[0,3)\nstate (floor)=5\nend\n",
        1,
        "NOT CERTIFIED 3 goal\n",
    ),
    (
        AREAS,
        "UNSOLVABLE 1\nstate (mass)=3\nend\n",
        1,
        "NOT CERTIFIED 2 goal\n",
    ),
    // a state that leads to one which is nowhere
    (
        TANK,
        "UNSOLVABLE 2\nstate (water)=0\nend\n",
        1,
        "NOT CERTIFIED 2 successor (leak)\n",
    ),
    (
        STAIRS,
        "UNSOLVABLE 1\nbox (floor)=[2,2]\nstate (floor)=0\nend\n",
        1,
        "NOT CERTIFIED 3 successor (climb)\n",
    ),
    (
        LAMPS,
        "UNSOLVABLE 2\nstate (lit a)=true (lit b)=false (wired a)=true (wired b)=false\nend\n",
        1,
        "NOT CERTIFIED 2 successor (cut a)\n",
    ),
    (
        SPLITS,
        "UNSOLVABLE 2\nstate (mass)=0\nstate (mass)=100000000000000000000\nend\n",
        1,
        "NOT CERTIFIED 3 successor (split)\n",
    ),
    // a number that leaves its range in a state
    (
        CELLS,
        "UNSOLVABLE 2\nstate (mass)=0\nstate (mass)=100000000000000000000\nend\n",
        1,
        "NOT CERTIFIED 3 over (grow)\n",
    ),
    (
        CELLS,
        "UNSOLVABLE 2\nbox (mass)=[0,inf)\nstate (mass)=100000000000000000000\nend\n",
        1,
        "NOT CERTIFIED 3 over (grow)\n",
    ),
    (
        SPLITS,
        "UNSOLVABLE 2\nbox (mass)=[0,inf)\nstate (mass)=100000000000000000000\nend\n",
        1,
        "NOT CERTIFIED 3 over (grow)\n",
    ),
    (
        AREAS,
        "UNSOLVABLE 1\nstate (mass)=100000000000000000000\nend\n",
        1,
        "NOT CERTIFIED 2 over goal\n",
    ),
    // an initial state that is nowhere
    (TANK, "UNSOLVABLE 1\nend\n", 1, "NOT CERTIFIED 2 initial\n"),
    (
        TANK,
        "UNSOLVABLE 2\nbox (water)=(-inf,-1]\nend\n",
        1,
        "NOT CERTIFIED 3 initial\n",
    ),
    (
        STAIRS,
        "UNSOLVABLE 2\nbox (floor)=[2,2]\nstate (floor)=1\nend\n",
        1,
        "NOT CERTIFIED 4 initial\n",
    ),
    // the first of several lines
    (
        STAIRS,
        "UNSOLVABLE 2\nbox (floor)=[0,3)\nbox (floor)=[5,5]\nbox (floor)=[0,1]\nstate (floor)=5\nend\n",
        1,
        "NOT CERTIFIED 3 maygoal\n",
    ),
    (
        STAIRS,
        "UNSOLVABLE 2\nstate (floor)=2\nstate (floor)=0\nstate (floor)=5\nend\n",
        1,
        "NOT CERTIFIED 3 successor (climb)\n",
    ),
    // more supporters than a search takes
    (CROWD, "UNSOLVABLE 2\nend\n", 1, "NOT CERTIFIED 2 initial\n"),
];

/// Whether `certify` answers the texts of a task and a certificate with this status and this line.
pub(crate) fn is_answer(
    alloc: Global,
    task: Pair,
    certificate: &str,
    status: u8,
    line: &str,
) -> Result<bool, NoMemory> {
    let (domain, problem) = task;
    if domain.len() > MOST || problem.len() > MOST || certificate.len() > MOST {
        return Ok(false);
    }
    let found = answer(
        alloc,
        domain.as_bytes(),
        problem.as_bytes(),
        certificate.as_bytes(),
    )?;
    Ok(found.status == status && found.text.as_slice() == line.as_bytes())
}

#[test]
fn certificates_have_verdicts(rt: HostRuntime) -> Result<(), Fail> {
    let alloc = rt.alloc();
    for &(task, certificate, status, line) in VERDICTS.iter() {
        assert!(rt;
            is_answer(alloc, task, certificate, status, line)?,
            "{line}{certificate}"
        );
    }
    Ok(())
}
