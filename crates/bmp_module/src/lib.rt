//! Graded modules over the polynomials, and maps between them.
//!
//! [`GradedModule`] and [`ModuleMap`] say what a graded module and a map of graded modules are. [`Free`], [`Quotient`],
//! [`TabledQuotient`] and [`Tuple`] are modules, [`Projection`] and [`Linear`] maps; [`Linear::columns`] is the matrix
//! of a map into any module. The degree of a variable is 1, and no degree passes 6.
#![tactic(auto)]

mod blocks;
pub mod columns;
pub mod coordinates;
pub mod free;
pub mod graded;
pub mod linear;
pub mod map;
pub mod normal;
pub mod normal_table;
pub mod projection;
pub mod pure;
pub mod quotient;
pub mod tabled;
pub mod tuple;

pub use coordinates::Coordinates;
pub use free::Free;
pub use graded::GradedModule;
pub use linear::Linear;
pub use map::ModuleMap;
pub use normal_table::NormalTable;
pub use projection::Projection;
pub use quotient::Quotient;
pub use tabled::TabledQuotient;
pub use tuple::Tuple;
