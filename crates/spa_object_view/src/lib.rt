//! Zero-copy views of objects at the fronts of inputs, and the object in which two of them meet by a rule, written property by property.
#![tactic(auto)]

mod answer;
mod apart;
mod front;
mod keyed;
mod meeting;
mod object_view;
mod pods;
mod rule;

pub use answer::{Answer, put_key, put_pod};
pub use front::{NoObject, ObjectPod, object_pod};
pub use meeting::{meet_pods, meet_viewed};
pub use object_view::{ObjectView, PropertyView};
pub use pods::{are_same, is_plain};
pub use rule::{Rule, Stop};
