// What a stream's instructions say: the names that they give, the variables that they make, and the program of the others.

pub(crate) mod names;
pub(crate) mod program;
pub(crate) mod steps;
pub(crate) mod variables;
