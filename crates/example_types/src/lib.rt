//! Types of a program's own, written as pods, and objects with choices. They know the library by its contracts alone.
#![tactic(auto)]

mod capture;
mod control;
mod curve;
mod format;
mod gain;
mod latency;
mod level;
mod media;
mod mode;
mod offer;
mod profile;
mod screen;
mod song;
mod stream;
mod tagged;
mod wish;

pub use capture::Capture;
pub use control::{Control, with_volume};
pub use curve::{Curve, put_curve};
pub use format::{AudioFormat, put_format};
pub use gain::Gain;
pub use latency::{Latency, latencies_come_back, read_latency};
pub use level::{Level, Pair};
pub use media::Media;
pub use mode::{Mode, Size, put_mode, read_mode, sent};
pub use offer::camera_formats;
pub use profile::{Availability, Profile};
pub use screen::{Device, Screen};
pub use song::{Cover, Song};
pub use stream::{StreamFormat, ranges_of_rates_are_refused, read_stream_format};
pub use tagged::{Tagged, is_number, tagged_number};
pub use wish::viewer_formats;
