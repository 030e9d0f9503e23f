//! Certificates that are good, and the first line against which something stands.

use crate::tasks::{discard, let_go, task};
use cert_check::{Checked, Reason, check};
use cert_reader::{CertFault, read_cert};
use ground_task::Task;
use num_ends::NoMemory;
use search_runs::Site;
use std::alloc::Global;
use std::test::Fail;

// The text of a certificate, and the line against which something stands, with what stands first against it; nothing where the
// certificate is good.
static VERDICTS: [(&str, Option<(u32, Reason)>); 26] = [
    // certified
    ("UNSOLVABLE 2\nbox (x)=[0,inf) (y)=[0,1]\nend\n", None),
    (
        "UNSOLVABLE 1\nbox (p)=any (q)=any (x)=[0,inf) (y)=(0,0.25]\nend\n",
        None,
    ),
    (
        "UNSOLVABLE 2\nbox (p)=true (q)=false (x)=[3,inf) (y)=[0,1]\nstate (p)=false (q)=true (x)=0 (y)=0.25\nstate (p)=true (q)=false (x)=1 (y)=0.25\nstate (p)=true (q)=false (x)=2 (y)=0.25\nend\n",
        None,
    ),
    (
        "UNSOLVABLE 2\nbox (p)=true (q)=false (x)=[3,inf) (y)=[0,1]\nstate (p)=true (q)=false (x)=2 (y)=0.25\nstate (p)=true (q)=false (x)=1 (y)=0.25\nstate (p)=true (q)=false (x)=2 (y)=0.25\nstate (p)=false (q)=true (x)=0 (y)=0.25\nend\n",
        None,
    ),
    (
        "UNSOLVABLE 2\nbox (x)=[0,inf) (y)=[0,1]\nstate (p)=false (q)=true (x)=10000000000 (y)=0.5\nend\n",
        None,
    ),
    // what a box leaves out may be anything
    (
        "UNSOLVABLE 2\nbox (x)=[0,inf)\nend\n",
        Some((2, Reason::MayGoal)),
    ),
    (
        "UNSOLVABLE 2\nbox (y)=[0,1]\nend\n",
        Some((2, Reason::MayGoal)),
    ),
    ("UNSOLVABLE 2\nbox\nend\n", Some((2, Reason::MayGoal))),
    // the first demand that a box leaves unmet
    (
        "UNSOLVABLE 2\nbox (q)=true (x)=[0,inf) (y)=[0,1]\nend\n",
        Some((2, Reason::Unmet(0))),
    ),
    (
        "UNSOLVABLE 2\nbox (x)=[0,1] (y)=[0,0.1]\nend\n",
        Some((2, Reason::Unmet(0))),
    ),
    (
        "UNSOLVABLE 2\nbox (x)=[0,inf) (y)=[0,1]\nbox (p)=true (x)=[2,9] (y)=[0,0.1]\nend\n",
        Some((3, Reason::Unmet(1))),
    ),
    // the last action
    (
        "UNSOLVABLE 2\nbox (p)=false (x)=[2,9] (y)=[0,0.1]\nend\n",
        Some((2, Reason::Unmet(2))),
    ),
    (
        "UNSOLVABLE 2\nbox (p)=false (q)=false (x)=[2,9] (y)=[0,0.1]\nend\n",
        Some((3, Reason::Initial)),
    ),
    // a state that leads to one which is nowhere
    (
        "UNSOLVABLE 2\nstate (p)=false (q)=true (x)=0 (y)=0.25\nend\n",
        Some((2, Reason::Successor(0))),
    ),
    (
        "UNSOLVABLE 2\nstate (p)=false (q)=true (x)=0 (y)=0.25\nstate (p)=true (q)=false (x)=1 (y)=0.25\nend\n",
        Some((3, Reason::Successor(0))),
    ),
    (
        "UNSOLVABLE 2\nstate (p)=false (q)=true (x)=0 (y)=0.25\nstate (p)=true (q)=false (x)=1 (y)=0.25\nstate (p)=true (q)=false (x)=2 (y)=0.25\nend\n",
        Some((4, Reason::Successor(1))),
    ),
    (
        "UNSOLVABLE 2\nbox (p)=false (x)=[2,9] (y)=[0,1]\nstate (p)=false (q)=true (x)=10000000000 (y)=0.5\nend\n",
        Some((3, Reason::Successor(2))),
    ),
    // a number that leaves its range, before an action behind it
    (
        "UNSOLVABLE 2\nstate (p)=true (q)=true (x)=10000000000 (y)=0.5\nend\n",
        Some((2, Reason::Over(Site::Action(1)))),
    ),
    (
        "UNSOLVABLE 2\nbox (x)=[0,inf) (y)=[0,1]\nstate (p)=false (q)=true (x)=0 (y)=0.25\nstate (p)=true (q)=false (x)=10000000000 (y)=0\nend\n",
        Some((4, Reason::Over(Site::Action(1)))),
    ),
    (
        "UNSOLVABLE 2\nbox (x)=[0,inf) (y)=[0,1]\nstate (p)=false (q)=true (x)=10000000000000 (y)=0\nend\n",
        Some((3, Reason::Over(Site::Goal))),
    ),
    // a state in which the goal holds
    (
        "UNSOLVABLE 2\nstate (p)=true (q)=true (x)=-1 (y)=0\nend\n",
        Some((2, Reason::GoalHolds)),
    ),
    (
        "UNSOLVABLE 2\nbox (x)=[0,inf) (y)=[0,1]\nstate (p)=false (q)=true (x)=0 (y)=0.25\nstate (p)=false (q)=false (x)=2 (y)=1.01\nend\n",
        Some((4, Reason::GoalHolds)),
    ),
    // an initial state that is nowhere
    ("UNSOLVABLE 2\nend\n", Some((2, Reason::Initial))),
    (
        "UNSOLVABLE 2\nbox (p)=true (q)=false (x)=[3,inf) (y)=[0,1]\nstate (p)=true (q)=false (x)=1 (y)=0.25\nstate (p)=true (q)=false (x)=2 (y)=0.25\nend\n",
        Some((5, Reason::Initial)),
    ),
    // the first line
    (
        "UNSOLVABLE 2\nstate (p)=false (q)=true (x)=0 (y)=0.25\nstate (p)=true (q)=true (x)=-1 (y)=0\nend\n",
        Some((2, Reason::Successor(0))),
    ),
    (
        "UNSOLVABLE 2\nbox (p)=true (q)=false (x)=[3,inf) (y)=[0,1]\nbox\nstate (p)=true (q)=true (x)=-1 (y)=0\nend\n",
        Some((3, Reason::MayGoal)),
    ),
];

// Whether a text reads as a certificate on which this is the answer.
fn is_checked(
    alloc: Global,
    task: &Task,
    text: &str,
    against: Option<(u32, Reason)>,
) -> Result<bool, NoMemory> {
    let cert = match read_cert(alloc, task, text.as_bytes()) {
        Ok(cert) => cert,
        Err(CertFault::NoMemory) => return Err(NoMemory),
        Err(_) => return Ok(false),
    };
    let found = check(alloc, task, &cert);
    let_go(cert);
    let wanted = match against {
        Some((line, reason)) => Checked::Refused { line, reason },
        None => Checked::Certified,
    };
    Ok(found? == wanted)
}

#[test]
fn certificates_are_checked(rt: HostRuntime) -> Result<(), Fail> {
    let alloc = rt.alloc();
    let task = task(alloc)?;
    for &(text, against) in VERDICTS.iter() {
        assert!(rt; is_checked(alloc, &task, text, against)?, "{text}");
    }
    discard(task);
    Ok(())
}
