//! The lines of the boxes and states that texts give.

ghost use Rattle.std.specs.Prelude.{All};
ghost use Rattle.ground_task.specs.Tasks.{IsStateOf};
ghost use Rattle.box_model.specs.Boxes.{IsBoxOf};

use crate::tasks::{discard, let_go, task};
use box_model::StateBox;
use cert_reader::{CertFault, read_cert};
use cert_text::{Cert, write_box, write_box_short, write_state};
use ground_task::{State, Task};
use num_ends::{List, NoMemory};
use std::alloc::Global;
use std::test::Fail;

// The text of a certificate, the lines of its boxes with each part, those with the parts that tell something, and the lines of
// its states.
static LINES: [(&str, &str, &str, &str); 9] = [
    // a box that tells nothing
    (
        "UNSOLVABLE 2\nbox\nend\n",
        "box (p)=any (q)=any (x)=(-inf,inf) (y)=(-inf,inf)\n",
        "box\n",
        "",
    ),
    (
        "UNSOLVABLE 1\nbox (p)=any (q)=any (x)=(-inf,inf) (y)=(-inf,inf)\nend\n",
        "box (p)=any (q)=any (x)=(-inf,inf) (y)=(-inf,inf)\n",
        "box\n",
        "",
    ),
    (
        "UNSOLVABLE 2\nbox (q)=any (y)=(-inf,inf)\nend\n",
        "box (p)=any (q)=any (x)=(-inf,inf) (y)=(-inf,inf)\n",
        "box\n",
        "",
    ),
    // each part alone
    (
        "UNSOLVABLE 2\nbox (p)=true\nbox (q)=false\nbox (x)=[1,2]\nbox (y)=(1,2)\nend\n",
        "box (p)=true (q)=any (x)=(-inf,inf) (y)=(-inf,inf)\nbox (p)=any (q)=false (x)=(-inf,inf) (y)=(-inf,inf)\nbox (p)=any (q)=any (x)=[1,2] (y)=(-inf,inf)\nbox (p)=any (q)=any (x)=(-inf,inf) (y)=(1,2)\n",
        "box (p)=true\nbox (q)=false\nbox (x)=[1,2]\nbox (y)=(1,2)\n",
        "",
    ),
    // open, closed and infinite ends
    (
        "UNSOLVABLE 1\nbox (p)=true (q)=any (x)=[-3,7) (y)=(-inf,1.25]\nbox (p)=false (q)=true (x)=(-3,7] (y)=[0.5,inf)\nend\n",
        "box (p)=true (q)=any (x)=[-3,7) (y)=(-inf,1.25]\nbox (p)=false (q)=true (x)=(-3,7] (y)=[0.5,inf)\n",
        "box (p)=true (x)=[-3,7) (y)=(-inf,1.25]\nbox (p)=false (q)=true (x)=(-3,7] (y)=[0.5,inf)\n",
        "",
    ),
    // decimals in any form
    (
        "UNSOLVABLE 2\nbox (x)=[-00.0,007.] (y)=(.5,1.2500000000000000000)\nstate (p)=true (q)=false (x)=-0 (y)=-.50\nend\n",
        "box (p)=any (q)=any (x)=[0,7] (y)=(0.5,1.25)\n",
        "box (x)=[0,7] (y)=(0.5,1.25)\n",
        "state (p)=true (q)=false (x)=0 (y)=-0.5\n",
    ),
    // the least and the greatest
    (
        "UNSOLVABLE 1\nbox (p)=any (q)=any (x)=[-170141183460469231731687303715884105727,170141183460469231731687303715884105727] (y)=[170141183460469231731687303715884105727,inf)\nstate (p)=false (q)=false (x)=170141183460469231731687303715884105727 (y)=-1701411834604692317316873037158841057.27\nend\n",
        "box (p)=any (q)=any (x)=[-170141183460469231731687303715884105727,170141183460469231731687303715884105727] (y)=[170141183460469231731687303715884105727,inf)\n",
        "box (x)=[-170141183460469231731687303715884105727,170141183460469231731687303715884105727] (y)=[170141183460469231731687303715884105727,inf)\n",
        "state (p)=false (q)=false (x)=170141183460469231731687303715884105727 (y)=-1701411834604692317316873037158841057.27\n",
    ),
    // in the order of the text, as often as they stand
    (
        "UNSOLVABLE 2\nstate (p)=true (q)=true (x)=2 (y)=0\nstate (p)=false (q)=true (x)=1 (y)=0\nstate (p)=true (q)=true (x)=2 (y)=0\nend\n",
        "",
        "",
        "state (p)=true (q)=true (x)=2 (y)=0\nstate (p)=false (q)=true (x)=1 (y)=0\nstate (p)=true (q)=true (x)=2 (y)=0\n",
    ),
    // nothing
    ("UNSOLVABLE 2\nend\n", "", "", ""),
];

fn full_lines(alloc: Global, task: &Task, boxes: &[StateBox]) -> Result<List<u8>, NoMemory>
    requires { All (IsBoxOf task.now) boxes.now }
{
    let mut out = List::new(alloc);
    for number in 0..boxes.len() {
        write_box(alloc, task, &boxes[number], &mut out)?;
    }
    Ok(out)
}

fn short_lines(alloc: Global, task: &Task, boxes: &[StateBox]) -> Result<List<u8>, NoMemory>
    requires { All (IsBoxOf task.now) boxes.now }
{
    let mut out = List::new(alloc);
    for number in 0..boxes.len() {
        write_box_short(alloc, task, &boxes[number], &mut out)?;
    }
    Ok(out)
}

fn state_lines(alloc: Global, task: &Task, states: &[State]) -> Result<List<u8>, NoMemory>
    requires { All (IsStateOf task.now) states.now }
{
    let mut out = List::new(alloc);
    for number in 0..states.len() {
        write_state(alloc, task, &states[number], &mut out)?;
    }
    Ok(out)
}

// Whether these are the lines of a certificate.
fn has_lines(
    alloc: Global,
    task: &Task,
    cert: &Cert,
    lines: (&str, &str, &str),
) -> Result<bool, NoMemory>
    requires boxes { All (IsBoxOf task.now) cert.now.boxes }
    requires states { All (IsStateOf task.now) cert.now.states }
{
    let (full, short, states) = lines;
    Ok(
        full_lines(alloc, task, cert.boxes.as_slice())?.as_slice() == full.as_bytes()
            && short_lines(alloc, task, cert.boxes.as_slice())?.as_slice() == short.as_bytes()
            && state_lines(alloc, task, cert.states.as_slice())?.as_slice() == states.as_bytes(),
    )
}

// Whether a text reads as a certificate with these lines.
fn reads_as(
    alloc: Global,
    task: &Task,
    text: &str,
    lines: (&str, &str, &str),
) -> Result<bool, NoMemory> {
    let cert = match read_cert(alloc, task, text.as_bytes()) {
        Ok(cert) => cert,
        Err(CertFault::NoMemory) => return Err(NoMemory),
        Err(_) => return Ok(false),
    };
    let found = has_lines(alloc, task, &cert, lines);
    let_go(cert);
    found
}

#[test]
fn texts_read_as_certificates(rt: HostRuntime) -> Result<(), Fail> {
    let alloc = rt.alloc();
    let task = task(alloc)?;
    for &(text, full, short, states) in LINES.iter() {
        assert!(rt;
            reads_as(alloc, &task, text, (full, short, states))?,
            "{text}"
        );
    }
    discard(task);
    Ok(())
}
