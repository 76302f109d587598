//! Variables: what each packet of a stream carries, by its number.
#![tactic(auto)]

mod bounds;
mod course;
mod draw;
mod faults;
mod laws;
mod places;
mod shown;
mod source;
mod spec;
mod strided;
mod value;
mod wheel;
mod words;

pub use faults::{VarFault, check};
pub use laws::values_lie_between;
pub use spec::{Op, VarSpec};
pub use strided::Strided;
pub use value::VarValue;
