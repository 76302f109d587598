// The commands, one a file. Each writes its own line and answers its status; its contract is its table.

pub(crate) mod analyze;
pub(crate) mod check;
pub(crate) mod help;
pub(crate) mod import;
pub(crate) mod run;
pub(crate) mod sample;
pub(crate) mod session;
pub(crate) mod wire;
