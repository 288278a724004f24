// The call `preserve_plan`: the copies that bring a rename's new version up to the live one.
#![tactic(auto)]

mod calls;
mod check_plan;
mod copy;
mod count_copies;
mod history;
mod put_copies;
mod since;
mod subresource;

pub use calls::preserve_plan::preserve_plan;
