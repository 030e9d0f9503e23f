//! Texts that are no certificates, and their first fault.

use crate::tasks::{discard, let_go, task};
use cert_reader::{CertFault, read_cert};
use ground_task::Task;
use num_ends::NoMemory;
use std::alloc::Global;
use std::test::Fail;

// The text, and the fault.
static FAULTS: [(&str, CertFault); 51] = [
    // the version
    ("UNSOLVABLE\nend\n", CertFault::BadLine(1)),
    ("UNSOLVABLE 02\nend\n", CertFault::BadLine(1)),
    ("CERTIFIED\n", CertFault::BadLine(1)),
    // decimals with too many places, or in another form
    (
        "UNSOLVABLE 2\nbox (x)=[0.5,1]\nend\n",
        CertFault::BadLine(2),
    ),
    (
        "UNSOLVABLE 2\nbox (y)=[0,0.125]\nend\n",
        CertFault::BadLine(2),
    ),
    (
        "UNSOLVABLE 2\nbox (y)=[1e1,inf)\nend\n",
        CertFault::BadLine(2),
    ),
    (
        "UNSOLVABLE 2\nbox (y)=[+1,inf)\nend\n",
        CertFault::BadLine(2),
    ),
    ("UNSOLVABLE 2\nbox (y)=[,inf)\nend\n", CertFault::BadLine(2)),
    (
        "UNSOLVABLE 2\nbox (y)=[170141183460469231731687303715884105728,inf)\nend\n",
        CertFault::BadLine(2),
    ),
    // empty intervals
    ("UNSOLVABLE 2\nbox (x)=[2,1]\nend\n", CertFault::BadLine(2)),
    ("UNSOLVABLE 2\nbox (x)=(1,1]\nend\n", CertFault::BadLine(2)),
    ("UNSOLVABLE 2\nbox (x)=[1,1)\nend\n", CertFault::BadLine(2)),
    // intervals in another form
    (
        "UNSOLVABLE 2\nbox (x)=[-inf,1]\nend\n",
        CertFault::BadLine(2),
    ),
    (
        "UNSOLVABLE 2\nbox (x)=[1,inf]\nend\n",
        CertFault::BadLine(2),
    ),
    (
        "UNSOLVABLE 2\nbox (x)=(inf,inf)\nend\n",
        CertFault::BadLine(2),
    ),
    (
        "UNSOLVABLE 2\nbox (x)=(-inf,-inf)\nend\n",
        CertFault::BadLine(2),
    ),
    ("UNSOLVABLE 2\nbox (x)=[1;2]\nend\n", CertFault::BadLine(2)),
    ("UNSOLVABLE 2\nbox (x)=[1,2\nend\n", CertFault::BadLine(2)),
    (
        "UNSOLVABLE 2\nbox (x)=[1,2,3]\nend\n",
        CertFault::BadLine(2),
    ),
    ("UNSOLVABLE 2\nbox (x)=[1, 2]\nend\n", CertFault::BadLine(2)),
    // facts in another form
    ("UNSOLVABLE 2\nbox (p)=True\nend\n", CertFault::BadLine(2)),
    ("UNSOLVABLE 2\nbox (p)=\nend\n", CertFault::BadLine(2)),
    ("UNSOLVABLE 2\nbox (p)\nend\n", CertFault::BadLine(2)),
    ("UNSOLVABLE 2\nbox p=true\nend\n", CertFault::BadLine(2)),
    // parts that are unknown, repeated or out of order
    ("UNSOLVABLE 2\nbox (r)=any\nend\n", CertFault::BadLine(2)),
    (
        "UNSOLVABLE 2\nbox (p)=any (p)=any\nend\n",
        CertFault::BadLine(2),
    ),
    (
        "UNSOLVABLE 2\nbox (x)=[0,1] (x)=[0,1]\nend\n",
        CertFault::BadLine(2),
    ),
    (
        "UNSOLVABLE 2\nbox (q)=any (p)=any\nend\n",
        CertFault::BadLine(2),
    ),
    (
        "UNSOLVABLE 2\nbox (x)=[0,1] (q)=any\nend\n",
        CertFault::BadLine(2),
    ),
    // blanks
    ("UNSOLVABLE 2\nbox  (p)=any\nend\n", CertFault::BadLine(2)),
    ("UNSOLVABLE 2\nbox (p)=any \nend\n", CertFault::BadLine(2)),
    ("UNSOLVABLE 2\nbox\t(p)=any\nend\n", CertFault::BadLine(2)),
    ("UNSOLVABLE 2\n box\nend\n", CertFault::BadLine(2)),
    ("UNSOLVABLE 2\nend \n", CertFault::BadLine(2)),
    // a missing part in the first version
    (
        "UNSOLVABLE 1\nbox (p)=any (q)=any (x)=(-inf,inf)\nend\n",
        CertFault::BadLine(2),
    ),
    // states that lack a part, or leave one open
    ("UNSOLVABLE 2\nbox\nstate\nend\n", CertFault::BadLine(3)),
    (
        "UNSOLVABLE 2\nbox\nstate (p)=true (q)=true (x)=0\nend\n",
        CertFault::BadLine(3),
    ),
    (
        "UNSOLVABLE 2\nbox\nstate (p)=any (q)=true (x)=0 (y)=0\nend\n",
        CertFault::BadLine(3),
    ),
    (
        "UNSOLVABLE 2\nbox\nstate (p)=true (q)=true (x)=[0,0] (y)=0\nend\n",
        CertFault::BadLine(3),
    ),
    // numbers that leave the range at the places of their fluent
    (
        "UNSOLVABLE 2\nbox\nstate (p)=true (q)=true (x)=170141183460469231731687303715884105728 (y)=0\nend\n",
        CertFault::BadLine(3),
    ),
    (
        "UNSOLVABLE 2\nbox\nstate (p)=true (q)=true (x)=0 (y)=170141183460469231731687303715884105727\nend\n",
        CertFault::BadLine(3),
    ),
    (
        "UNSOLVABLE 2\nbox\nstate (p)=true (q)=true (x)=0 (y)=1701411834604692317316873037158841057.28\nend\n",
        CertFault::BadLine(3),
    ),
    // lines in another place
    (
        "UNSOLVABLE 2\nbox\nUNSOLVABLE 2\nend\n",
        CertFault::BadLine(3),
    ),
    (
        "UNSOLVABLE 2\nstate (p)=true (q)=true (x)=0 (y)=0\nbox\nend\n",
        CertFault::BadLine(3),
    ),
    ("UNSOLVABLE 2\nend\n\n", CertFault::BadLine(3)),
    ("UNSOLVABLE 2\nend\nx", CertFault::BadLine(3)),
    // texts that end early, whatever the unended line says
    ("", CertFault::EndsEarly(1)),
    ("CERTIFIED", CertFault::EndsEarly(1)),
    ("UNSOLVABLE 2\nboxes", CertFault::EndsEarly(2)),
    ("UNSOLVABLE 2\nbox\nend", CertFault::EndsEarly(3)),
    ("UNSOLVABLE 2\nbox\n\0\n", CertFault::BadLine(3)),
];

// The first fault of a text, where it is no certificate.
fn fault_of(alloc: Global, task: &Task, text: &str) -> Result<Option<CertFault>, NoMemory> {
    match read_cert(alloc, task, text.as_bytes()) {
        Ok(cert) => {
            let_go(cert);
            Ok(None)
        }
        Err(CertFault::NoMemory) => Err(NoMemory),
        Err(fault) => Ok(Some(fault)),
    }
}

#[test]
fn texts_have_first_faults(rt: HostRuntime) -> Result<(), Fail> {
    let alloc = rt.alloc();
    let task = task(alloc)?;
    for &(text, fault) in FAULTS.iter() {
        assert!(rt; fault_of(alloc, &task, text)? == Some(fault), "{text}");
    }
    discard(task);
    Ok(())
}
