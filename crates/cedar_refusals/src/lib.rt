//! Why a text of policies, or the body of a command, is refused, and where; and which policies a text is that isn't.
//!
//! [`check_text`](checking::check_text) reports of a text of policies, and a [`Checker`](checking::Checker) of several.
//! [`tell_refusal`](giving::tell_refusal) reports of a body that a session refused; [`why`](why) has the same as data.
#![tactic(auto)]

mod body_faults;
pub mod checking;
mod edit_faults;
pub mod giving;
pub mod listing;
pub mod naming;
mod reasons;
mod seen;
mod shapes;
mod value_faults;

pub use reasons::why;
pub use seen::Seen;
