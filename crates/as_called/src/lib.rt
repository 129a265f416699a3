//! What a terminal reports is what the application gives when it is called directly.
#![tactic(auto)]

mod direct;
mod fault;
mod link;
mod noted;
mod over_t0;
mod over_t1;
mod whole;

pub use direct::Direct;
pub use fault::SendFault;
pub use link::Link;
pub use over_t0::OverT0;
pub use over_t1::OverT1;
pub use whole::send;
