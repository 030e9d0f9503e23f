//! The values of literals and comparisons.

ghost use Rattle.std.specs.Prelude.{◌≡◌, ◌<◌, ◌≤◌, length, map, min};
ghost use Rattle.simple_atoms.specs.declared.linear.TheConstants.{FAR};
ghost use Rattle.ground_task.specs.Meaning.{fact_value, has_truth};
ghost use Rattle.subgoal.specs.declared.unmet.Unmet.{Unmet};
ghost use Rattle.subgoal.specs.Equations.{atom_value, least_of, least_reached, reached_by};
ghost use Rattle.subgoal.specs.Help.{help_by_form, help_by_truth, literal_help, valued_form};
ghost use Rattle.subgoal.specs.Leaves.{comparison_leaf, gain_at, literal_leaf, reached_at};
ghost use Rattle.subgoal.specs.Network.{IsAtom};
ghost use Rattle.subgoal.specs.Unmet.{help_by_value, help_of, value_seen, IsRight};

use crate::leaves::Leaf;
use crate::network::Atom;
use crate::unmet::{Unmet, help_by_gain};
use ground_task::{GCond, GExpr, Ground, Rel, State, Task, Truth};
use num_ends::Dec;
use simple_atoms::{FAR, Linear, value_in};

/// A comparison's form, and its value in a state.
#[derive(Clone, Copy)]
struct Valued<'a> {
    form: &'a Linear,
    value: Dec,
}

/// A task, a state of it, and a value for each action.
#[derive(Clone, Copy)]
pub(crate) struct View<'a> {
    pub task: &'a Task,
    pub state: &'a State,
    pub values: &'a [u32],
}

fn reached_by(help: Option<u32>, value: u32) -> u32
    ensures { result ≡ reached_by help value }
{
    match help {
        Some(repetitions) => {
            let steps = u64::from(repetitions) + u64::from(value);
            steps.min(u64::from(FAR)) as u32
        }
        None => FAR,
    }
}

/// A value lowered to what the action of this number reaches; an action whose own value isn't below it reaches nothing
/// less.
#[tactic(auto, using(crate::proofs::Helpers::lowered_known, crate::proofs::Helpers::lowered_unknown, crate::proofs::Helpers::lowered_passed))]
fn lowered(unmet: &Unmet, actions: &[Ground], values: &[u32], action: u32, least: u32) -> u32
    requires as_many { length values.now ≡ length actions.now }
    requires near { least ≤ FAR }
    ensures value { result ≡ min least (reached_at (help_of unmet.now) actions.now values.now action) }
    ensures near { result ≤ FAR }
{
    let i = action as usize;
    if i >= actions.len() {
        return least;
    }
    if values[i] >= least {
        return least;
    }
    least.min(reached_by(unmet.help(&actions[i]), values[i]))
}

/// The least value over the actions of these numbers.
#[tactic(auto, using(crate::proofs::Steps::any_first, crate::proofs::Steps::any_lowered, crate::proofs::Steps::any_end))]
fn least_over(unmet: &Unmet, actions: &[Ground], values: &[u32], helpers: &[u32]) -> u32
    requires { length values.now ≡ length actions.now }
    ensures { result ≡ least_of (map (reached_at (help_of unmet.now) actions.now values.now) helpers.now) }
{
    let mut least = FAR;
    'each: for helper in helpers {
        least = lowered(unmet, actions, values, *helper, least);
    }
    least
}

/// The same for a comparison whose form has this value, by the action's gain.
#[tactic(auto, using(crate::proofs::Helpers::lowered_by_gain, crate::proofs::Helpers::lowered_unknown, crate::proofs::Helpers::lowered_passed))]
fn lowered_by(
    valued: &Valued,
    gain: Option<Dec>,
    actions: &[Ground],
    values: &[u32],
    action: u32,
    least: u32,
) -> u32
    requires as_many { length values.now ≡ length actions.now }
    requires gain { gain ≡ gain_at actions.now valued.now.form.now action }
    requires near { least ≤ FAR }
    ensures value { result ≡ min least (reached_at (help_by_value valued.now.form.now valued.now.value) actions.now values.now action) }
    ensures near { result ≤ FAR }
{
    let i = action as usize;
    if i >= actions.len() {
        return least;
    }
    if values[i] >= least {
        return least;
    }
    let help = help_by_gain(valued.form, valued.value, gain, &actions[i]);
    least.min(reached_by(help, values[i]))
}

/// The least value over the actions of these numbers, which have these gains.
#[tactic(auto, using(crate::proofs::Steps::any_first, crate::proofs::Steps::any_lowered, crate::proofs::Steps::any_end))]
fn least_by_gains(
    valued: &Valued,
    actions: &[Ground],
    values: &[u32],
    helpers: &[u32],
    gains: &[Option<Dec>],
) -> u32
    requires as_many { length values.now ≡ length actions.now }
    requires long { length gains.now ≡ length helpers.now }
    requires gains { gains.now ≡ map (gain_at actions.now valued.now.form.now) helpers.now }
    ensures { result ≡ least_of (map (reached_at (help_by_value valued.now.form.now valued.now.value) actions.now values.now) helpers.now) }
{
    let mut least = FAR;
    'each: for (k, helper) in helpers.iter().enumerate() {
        least = lowered_by(valued, gains[k], actions, values, *helper, least);
    }
    least
}

fn unmet_value(view: &View, unmet: &Unmet, helpers: &[u32]) -> u32
    requires { IsRight view.now }
    ensures { result ≡ least_of (map (reached_at (help_of unmet.now) view.now.task.now.raw.actions view.now.values.now) helpers.now) }
{
    least_over(
        unmet,
        view.task.raw().actions.as_slice(),
        view.values,
        helpers,
    )
}

/// Whether a fact has this truth value.
fn has_truth(view: &View, fact: u32, truth: bool) -> bool
    requires right { IsRight view.now }
    requires known { fact < length view.now.task.now.raw.facts }
    ensures { result ≡ has_truth truth (fact_value view.now.state.now fact) }
{
    if truth {
        view.state.fact(fact)
    } else {
        !view.state.fact(fact)
    }
}

#[tactic(auto, using(crate::proofs::Helpers::literal_least))]
fn literal(view: &View, leaf: &Leaf, unmet: &Unmet, fact: u32, truth: bool) -> u32
    requires right { IsRight view.now }
    requires unmet { unmet.now ≡ Unmet.Literal fact truth }
    requires known { fact < length view.now.task.now.raw.facts }
    ensures { leaf.now ≡ literal_leaf view.now.task.now.raw.actions fact truth → result ≡ atom_value view.now.task.now.raw.actions view.now.values.now (literal_help view.now.state.now fact truth) }
{
    if has_truth(view, fact, truth) {
        return 0;
    }
    unmet_value(view, unmet, leaf.helpers.as_slice())
}

/// The value of a comparison that isn't true and isn't over.
#[tactic(auto, using(crate::proofs::Helpers::valued_least, crate::proofs::Helpers::unvalued_least, crate::proofs::Helpers::formless_least, crate::proofs::Helpers::gains_known, crate::proofs::Helpers::gains_long))]
fn untrue(view: &View, leaf: &Leaf, rel: Rel, left: &GExpr, right: &GExpr) -> u32
    requires right { IsRight view.now }
    requires leaf { leaf.now ≡ comparison_leaf view.now.task.now.raw.actions rel left.now right.now }
    ensures { result ≡ least_reached (help_by_form left.now right.now (valued_form view.now.task.now.places view.now.state.now rel left.now right.now)) view.now.task.now.raw.actions view.now.values.now }
{
    let Some(form) = &leaf.form else {
        return unmet_value(view, &Unmet::Reads(left, right), leaf.helpers.as_slice());
    };
    let Some(value) = value_in(view.task, form, view.state) else {
        return unmet_value(view, &Unmet::Reads(left, right), leaf.helpers.as_slice());
    };
    let valued = Valued { form, value };
    let actions = view.task.raw().actions.as_slice();
    least_by_gains(
        &valued,
        actions,
        view.values,
        leaf.helpers.as_slice(),
        leaf.gains.as_slice(),
    )
}

fn comparison(view: &View, leaf: &Leaf, truth: Truth, rel: Rel, left: &GExpr, right: &GExpr) -> u32
    requires right { IsRight view.now }
    requires leaf { leaf.now ≡ comparison_leaf view.now.task.now.raw.actions rel left.now right.now }
    ensures { result ≡ atom_value view.now.task.now.raw.actions view.now.values.now (help_by_truth view.now.task.now view.now.state.now rel left.now right.now truth) }
{
    match truth {
        Truth::Yes => 0,
        Truth::No => untrue(view, leaf, rel, left, right),
        Truth::Over => unmet_value(view, &Unmet::Reads(left, right), leaf.helpers.as_slice()),
    }
}

/// The value of an atom.
#[tactic(auto, using(crate::proofs::Seen::known_fact, crate::proofs::Seen::comparison_known))]
fn weight(view: &View, atom: &Atom) -> u32
    requires right { IsRight view.now }
    requires atom { IsAtom view.now.task.now atom.now }
    ensures { result ≡ value_seen view.now atom.now.cond.now }
{
    match atom.cond {
        GCond::Fact(fact, truth) => {
            let unmet = Unmet::Literal(*fact, *truth);
            literal(view, &atom.leaf, &unmet, *fact, *truth)
        }
        GCond::Cmp(rel, left, right) => {
            let truth = view.task.truth(atom.cond, view.state);
            comparison(view, &atom.leaf, truth, *rel, left, right)
        }
        GCond::True | GCond::False | GCond::And(_) | GCond::Or(_) => 0,
    }
}

/// The value of an atom whose last value this was, where one of 0 stays.
pub(crate) fn weight_after(view: &View, atom: &Atom, last: u32) -> u32
    requires right { IsRight view.now }
    requires atom { IsAtom view.now.task.now atom.now }
    requires zero { last ≡ 0 → value_seen view.now atom.now.cond.now ≡ 0 }
    ensures { result ≡ value_seen view.now atom.now.cond.now }
{
    if last == 0 {
        return 0;
    }
    weight(view, atom)
}
