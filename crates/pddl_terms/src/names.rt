//! Names, and what is built of names alone.

use num_ends::{List, Text};

/// A name or a variable as it stands in a file, its letters folded to lower case. A variable's text begins with `?`.
#[derive(Debug, Drop)]
pub struct Name {
    pub text: Text,
    /// The position of its first byte in the file.
    pub at: u32,
}

/// An argument of a predicate or a function.
#[derive(Debug, Drop)]
pub enum Arg {
    /// A variable.
    Var(Name),
    /// The name of an object or a constant.
    Obj(Name),
}

/// A predicate or a function with its arguments.
#[derive(Debug, Drop)]
pub struct Atom {
    pub head: Name,
    pub args: List<Arg>,
}

/// A name with its type. Where the file gives none the type is `object`, at the place of the name itself.
#[derive(Debug, Drop)]
pub struct Typed {
    pub name: Name,
    pub kind: Name,
}

/// The declaration of a predicate or a function.
#[derive(Debug, Drop)]
pub struct Sig {
    pub name: Name,
    pub params: List<Typed>,
}
