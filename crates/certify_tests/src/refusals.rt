//! Texts that are refused, with the line that is told.

use crate::tasks::{LAMPS, Pair, SCALES, STAIRS, TANK, UNENDED, UNKNOWN, UNSET};
use crate::verdicts::is_answer;
use std::test::Fail;

// The task, the text of the certificate, and the status and the line of the answer.
static REFUSALS: [(Pair, &str, u8, &str); 31] = [
    // another first line
    (
        TANK,
        "UNSOLVABLE 3\nend\n",
        4,
        "REFUSED certificate 1 BADLINE\n",
    ),
    (
        TANK,
        "\nUNSOLVABLE 2\nend\n",
        4,
        "REFUSED certificate 1 BADLINE\n",
    ),
    (
        TANK,
        "unsolvable 2\nend\n",
        4,
        "REFUSED certificate 1 BADLINE\n",
    ),
    (
        TANK,
        "UNSOLVABLE 2 \nend\n",
        4,
        "REFUSED certificate 1 BADLINE\n",
    ),
    (
        TANK,
        "UNSOLVABLE 2\r\nend\r\n",
        4,
        "REFUSED certificate 1 BADLINE\n",
    ),
    // a part that is missing, unknown, repeated or out of order
    (
        TANK,
        "UNSOLVABLE 1\nbox\nend\n",
        4,
        "REFUSED certificate 2 BADLINE\n",
    ),
    (
        LAMPS,
        "UNSOLVABLE 1\nbox (lit a)=any (lit b)=false (wired b)=false\nend\n",
        4,
        "REFUSED certificate 2 BADLINE\n",
    ),
    (
        LAMPS,
        "UNSOLVABLE 2\nbox (lit b)=false (lit c)=any (wired b)=false\nend\n",
        4,
        "REFUSED certificate 2 BADLINE\n",
    ),
    (
        LAMPS,
        "UNSOLVABLE 2\nbox (lit b)=false (lit b)=false (wired b)=false\nend\n",
        4,
        "REFUSED certificate 2 BADLINE\n",
    ),
    (
        LAMPS,
        "UNSOLVABLE 2\nbox (lit b)=false (wired b)=false\nbox (wired b)=false (lit b)=false\nend\n",
        4,
        "REFUSED certificate 3 BADLINE\n",
    ),
    (
        SCALES,
        "UNSOLVABLE 2\nbox (right)=[0,1] (left)=(-inf,0]\nend\n",
        4,
        "REFUSED certificate 2 BADLINE\n",
    ),
    (
        SCALES,
        "UNSOLVABLE 2\nstate (left)=0 (right)=0.25\nend\n",
        4,
        "REFUSED certificate 2 BADLINE\n",
    ),
    (
        SCALES,
        "UNSOLVABLE 2\nstate (level)=any (left)=0 (right)=0.25\nend\n",
        4,
        "REFUSED certificate 2 BADLINE\n",
    ),
    // numbers and intervals that are none here
    (
        TANK,
        "UNSOLVABLE 2\nbox (water)=[1,0]\nend\n",
        4,
        "REFUSED certificate 2 BADLINE\n",
    ),
    (
        TANK,
        "UNSOLVABLE 2\nbox (water)=[-inf,0]\nend\n",
        4,
        "REFUSED certificate 2 BADLINE\n",
    ),
    (
        SCALES,
        "UNSOLVABLE 2\nbox (left)=[0,0.25]\nend\n",
        4,
        "REFUSED certificate 2 BADLINE\n",
    ),
    (
        SCALES,
        "UNSOLVABLE 2\nstate (level)=true (left)=1.7e308 (right)=0\nend\n",
        4,
        "REFUSED certificate 2 BADLINE\n",
    ),
    // a line that stands in another place
    (
        STAIRS,
        "UNSOLVABLE 2\nstate (floor)=2\nbox (floor)=[0,3)\nend\n",
        4,
        "REFUSED certificate 3 BADLINE\n",
    ),
    (
        STAIRS,
        "UNSOLVABLE 2\nbox (floor)=[0,3)\n\nend\n",
        4,
        "REFUSED certificate 3 BADLINE\n",
    ),
    (
        STAIRS,
        "UNSOLVABLE 2\nbox (floor)=[0,3)\nend\nend\n",
        4,
        "REFUSED certificate 4 BADLINE\n",
    ),
    (
        STAIRS,
        "UNSOLVABLE 2\nbox (floor)=[0,3)\nend\n ",
        4,
        "REFUSED certificate 4 BADLINE\n",
    ),
    // the first fault, before what stands against an earlier line
    (
        STAIRS,
        "UNSOLVABLE 2\nbox (floor)=[0,9]\nbox (floor)=[0,3) \n",
        4,
        "REFUSED certificate 3 BADLINE\n",
    ),
    // a text that ends early
    (TANK, "", 4, "REFUSED certificate 1 ENDSEARLY\n"),
    (TANK, "UNSOLVABLE 2", 4, "REFUSED certificate 1 ENDSEARLY\n"),
    (TANK, "UNSOLVABLE 3", 4, "REFUSED certificate 1 ENDSEARLY\n"),
    (
        TANK,
        "UNSOLVABLE 2\n",
        4,
        "REFUSED certificate 2 ENDSEARLY\n",
    ),
    (
        STAIRS,
        "UNSOLVABLE 1\nbox (floor)=[2,2]\nstate (fl",
        4,
        "REFUSED certificate 3 ENDSEARLY\n",
    ),
    (
        STAIRS,
        "UNSOLVABLE 1\nbox (floor)=[2,2]\nend",
        4,
        "REFUSED certificate 3 ENDSEARLY\n",
    ),
    // the two other texts first
    (UNKNOWN, "", 4, "REFUSED domain 1:50 UNKNOWNNAME z\n"),
    (UNENDED, "", 4, "REFUSED problem 1:1 UNCLOSED\n"),
    (UNSET, "", 4, "REFUSED UNSET (x)\n"),
];

#[test]
fn texts_are_refused(rt: HostRuntime) -> Result<(), Fail> {
    let alloc = rt.alloc();
    for &(task, certificate, status, line) in REFUSALS.iter() {
        assert!(rt;
            is_answer(alloc, task, certificate, status, line)?,
            "{line}{certificate}"
        );
    }
    Ok(())
}
