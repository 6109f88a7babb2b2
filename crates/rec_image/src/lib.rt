//! Images of heaps: the live objects of a settled heap and what registers name, as a text that is read again.
//!
//! The rule that this crate keeps: an image is read exactly from its own text, and what is written is the text of an image that
//! stands for the world in all but the field words. `specs/Image.antt` says which values are images, by the numbering of a
//! listing, and which text each has, apart from reader and writer; and of other bytes which line is the first with which no
//! image goes on.
//! While an image is read, `Meeting` tells whether some registers can complete the objects so far.
//! A heap that is restored from an image is settled and has that image again.
//! A heap that begins anew is the one restored from its own image, with as many slots as asked: `renew` takes it from the world's rows.
//! The layer above may use the clauses of `read`, `write`, `restore`, `renew` and the readers of `Image`, and the laws in `laws`.
//! The form of an image is this project's profile (`docs/PROFILE.md`).
#![tactic(auto)]

mod error;
mod held;
mod image;
mod laws;
mod line;
mod live;
mod meeting;
mod objects;
mod piece;
mod reading;
mod renewing;
mod spelling;
mod writing;

pub use error::{ImageError, RenewError};
pub use image::{Image, restore};
pub use laws::{images_stop_at_one_line, restored_heaps_have_their_image};
pub use reading::read;
pub use renewing::renew;
pub use writing::write;
