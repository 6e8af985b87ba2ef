//! Bits of two lines with a clock each from the samples of a recording, what is counted in these, the places of the
//! second line's bits, and the rule by which that line comes to rest.
#![tactic(auto)]

mod block;
mod facts;
mod gather;
pub mod laws;
mod number;
mod octets;
mod places;
mod rest;
mod sampler;
mod stop;
mod tap;
mod wires;
mod words;

pub use block::{EdgeBlock, LevelBlock, LineBlock, LineEdges, LowestOne, lowest_one};
pub use facts::{Gap, Levels, LineFacts, Occurrences, TapFacts};
pub use gather::{ByLanes, ByWords, Gather};
pub use number::number_of;
pub use octets::alike;
pub use places::BitPlaces;
pub use rest::RestRule;
pub use sampler::{Edges, Sampler};
pub use stop::StopRule;
pub use tap::{ConsumedSamples, SampleLimit, Tap};
pub use wires::{Wire, Wires};
pub use words::{TapWords, WireLevel};
