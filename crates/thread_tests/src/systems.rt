//! Two systems: one word of each way, and a long chain.

use bound_words::{Direction, System};

// One word of each way, and three rules.
#[derive(Drop)]
pub struct Small;

impl System for Small {
    ghost use Rattle.thread_tests.specs.Samples.{small};
    ghost use Rattle.thread_tests.specs.SampleLaws.{small_monotone};

    ghost terms = { λ _. small };

    fn words(&self) -> u32 {
        3
    }

    fn direction(&self, word: u32) -> Direction {
        match word {
            0 => Direction::Max,
            1 => Direction::Min,
            _ => Direction::Or,
        }
    }

    fn rules(&self) -> u32 {
        3
    }

    fn raise(&self, rule: u32, row: &[u64]) -> Option<(u32, u64)> {
        match rule {
            0 => Some((0, 3)),
            1 => if row[0] == 0 {
                None
            } else {
                Some((1, 10u64.saturating_sub(row[0])))
            },
            _ => if 7 < row[1] { None } else { Some((2, 4)) },
        }
    }

    ghost monotone = { λ _. small_monotone };
}

// Ten rules for each of 10,000 words hand its value on to later words.
#[derive(Drop)]
pub struct Chain;

impl System for Chain {
    ghost use Rattle.thread_tests.specs.Samples.{chain};
    ghost use Rattle.thread_tests.specs.SampleLaws.{chain_monotone};

    ghost terms = { λ _. chain };

    fn words(&self) -> u32 {
        10000
    }

    fn direction(&self, _word: u32) -> Direction {
        Direction::Max
    }

    fn rules(&self) -> u32 {
        100000
    }

    fn raise(&self, rule: u32, row: &[u64]) -> Option<(u32, u64)> {
        let from = rule % 10000;
        let target = from + 1 + 10 * (rule / 10000);
        if target < 10000 {
            Some((target, row[from as usize]))
        } else {
            None
        }
    }

    ghost monotone = { λ _. chain_monotone };
}
