//! The walk over a file's rows: stripe by stripe, batch by batch, into a consumer.
#![tactic(auto)]

mod stop;
mod stripe_walk;
mod stripes_walk;

pub use stop::Stop;
pub use stripe_walk::walk_stripe;
pub use stripes_walk::walk_stripes;
