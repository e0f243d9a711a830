//! Offers of the elements of one type, and the value in which two offers meet; the forms of values.
#![tactic(auto)]

mod element;
mod elements;
mod form;
mod kept;
mod meeting;
mod numbers;
mod offer;

pub use element::Element;
pub use form::{Form, form_of};
pub use kept::index_of_all;
pub use meeting::meet;
pub use numbers::Numbers;
pub use offer::{Offer, admits, default_of, is_among, is_same, offer_of};
