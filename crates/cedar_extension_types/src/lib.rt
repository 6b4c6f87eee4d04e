//! Cedar's standard extension types `decimal`, `ipaddr`, `datetime` and `duration`: their 22 functions as those of a
//! table, and the table. (Cedar language reference, "Extension types".)
#![tactic(auto)]

mod arguments;
mod calls;
mod decimal_calls;
mod functions;
mod ip_calls;
pub mod laws;
mod named;
pub mod tables;
mod time_calls;
mod values;

pub use functions::{StandardFunction, TypeFunction};
