//! The events of a search.

/// One event of a search by workers, which have numbers from 0.
#[derive(Clone, Copy, Debug, PartialEq, Eq)]
pub enum Event {
    /// The initial state becomes node 0.
    Start,
    /// The worker takes the node, in this order.
    Take(u32, u32),
    /// The worker gives what the actions of the node lead to, in this order.
    Give(u32, u32),
    /// The worker found no memory and stops.
    Starve(u32),
}
