//! The answer of a search.

ghost use Rattle.std.specs.Prelude.{◌≡◌};
ghost use Rattle.search_runs.specs.Answers.{answer_of, when_idle};
ghost use Rattle.search_nodes.specs.Tables.{config_of};

use crate::search::SearchTurns;
use search_runs::Answer;

impl SearchTurns {
    /// The answer, once there is one: a plan to the first goal node; a worker starved; and, where no node is taken, a
    /// lack of room, the limit of expansions, a number that left its range, or that no plan exists.
    pub fn answer(&self) -> Option<Answer>
        ensures { result ≡ answer_of self.now.limit self.now.journal (config_of self.now.table) }
    {
        if let Some(node) = self.nodes.goal() {
            return Some(Answer::Plan(node));
        }
        if self.starved {
            return Some(Answer::Starved);
        }
        if self.nodes.taken() > 0 {
            return None;
        }
        self.idle_answer()
    }

    // the answer where no goal is reached, no worker starved and no node is taken
    fn idle_answer(&self) -> Option<Answer>
        ensures { result ≡ when_idle self.now.limit self.now.journal (config_of self.now.table) }
    {
        if let Some(full) = self.nodes.full() {
            return Some(Answer::Filled(full));
        }
        if self.nodes.waits() {
            return if self.takes < self.limit {
                None
            } else {
                Some(Answer::Expansions)
            };
        }
        match self.nodes.over() {
            Some((node, site)) => Some(Answer::Over(node, site)),
            None => Some(Answer::Exhausted),
        }
    }
}
