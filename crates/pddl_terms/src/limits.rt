//! What a file or a task may have too many of.

ghost use Rattle.std.specs.Prelude.{◌≡◌};
ghost use Rattle.pddl_terms.specs.Limits.{limit_of};

/// The kinds of things that are limited in number.
#[derive(Clone, Copy, Debug, PartialEq, Eq)]
pub enum What {
    /// Objects and constants.
    Objects,
    /// Parameters of one list.
    Parameters,
    /// Single effects of an action.
    Effects,
    /// Bytes of a name.
    Letters,
    /// Facts of a task.
    Facts,
    /// Fluents of a task.
    Fluents,
    /// Ground actions.
    Actions,
    /// Partial bindings of an action's parameters.
    Prefixes,
    /// What raises bounds in a relaxation.
    Supporters,
}

/// The most constants of a domain, the most objects of a problem, and the most of both together in a task.
pub const MAX_OBJECTS: u32 = 1_024;

/// The most parameters of an action, a predicate or a function.
pub const MAX_PARAMETERS: u32 = 8;

/// The most single effects of an action.
pub const MAX_EFFECTS: u32 = 256;

/// The most bytes of a name. The `?` of a variable isn't counted.
pub const MAX_LETTERS: u32 = 128;

/// The most facts of a task.
pub const MAX_FACTS: u32 = 4_096;

/// The most fluents of a task.
pub const MAX_FLUENTS: u32 = 256;

/// The most ground actions of a task.
pub const MAX_ACTIONS: u32 = 20_000;

/// The most bindings of an action's first parameters that aren't excluded, of all lengths from 1 together.
pub const MAX_PREFIXES: u32 = 5_000_000;

/// The most supporters of a task.
pub const MAX_SUPPORTERS: u32 = 200_000;

/// The greatest height of an expression or a condition in a file.
pub const MAX_HEIGHT: u32 = 400;

impl What {
    /// How many there may be.
    pub fn limit(self) -> u32
        ensures { result ≡ limit_of self }
    {
        match self {
            What::Objects => MAX_OBJECTS,
            What::Parameters => MAX_PARAMETERS,
            What::Effects => MAX_EFFECTS,
            What::Letters => MAX_LETTERS,
            What::Facts => MAX_FACTS,
            What::Fluents => MAX_FLUENTS,
            What::Actions => MAX_ACTIONS,
            What::Prefixes => MAX_PREFIXES,
            What::Supporters => MAX_SUPPORTERS,
        }
    }
}
