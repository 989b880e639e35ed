//! Where an Interest is sent: strategies that choose among next hops.
#![tactic(auto)]

mod best_route;
mod eligible;
mod law;
mod multicast;
mod strategy;

pub use best_route::BestRoute;
pub use eligible::{any_eligible, eligible_at};
pub use law::each_chosen_face_is_eligible;
pub use multicast::Multicast;
pub use strategy::{Ask, Choice, Strategy};
