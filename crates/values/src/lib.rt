// Values (document 01's second crate): a tag's bytes become a value stream, a stream's values are set in a tag's bytes,
// an image is made normal, and a string's stored text is handed back. It stands on `types` by the rows of its tables
// and by what every layout promises.
#![tactic(auto)]

mod normal_image;
mod reading;
mod stream;
mod writing;

pub use normal_image::normal::normal;
pub use reading::read::read;
pub use reading::stored::text;
pub use stream::entry::{Entry, entry_at, store_entry};
pub use stream::form::stream_ok;
pub use writing::write::write;
