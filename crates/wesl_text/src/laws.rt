//! Laws of shader text: what is said is read, what is read is said, and what a text says can be printed.
pub use wesl_text_reading::{law_of_reading, law_of_units};
pub use wesl_text_sink::{law_of_layout, law_of_printing, law_of_slots};
pub use wesl_text_sound::{law_of_soundness, law_of_texts};
pub use wesl_text_writable::{law_of_fewest, law_of_texts_apart, law_of_writing};
