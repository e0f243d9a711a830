//! Typed reads: from the pod at the front of an input to a type of the program's own, member by member or by a visitor.
#![tactic(auto)]

mod array_element;
mod builtin;
mod content;
mod deserializer;
mod exact;
mod items;
pub mod laws;
mod members;
mod object_content;
mod passing;
mod pods;
mod properties;
mod settled;
mod typed;
mod visitor;

pub use array_element::ArrayElement;
pub use content::{DeserializeAs, DeserializeMembers, StructOf};
pub use deserializer::{DeserializeSuccess, PodDeserialize, PodDeserializer, ReadResult};
pub use exact::ExactDeserialize;
pub use items::ArrayPodDeserializer;
pub use members::StructPodDeserializer;
pub use object_content::{DeserializeProperties, ObjectOf, Optional, Required};
pub use passing::Skipped;
pub use properties::ObjectPodDeserializer;
pub use settled::Settled;
pub use visitor::{Never, VariantVisitor, Visit, Visitor};
