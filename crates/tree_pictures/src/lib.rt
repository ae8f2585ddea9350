//! A report as a picture: SVG that needs nothing from elsewhere. `specs/Picture.antt` defines its
//! bytes. Its styles and the words of its legend stand there as constants.
#![tactic(auto)]

mod accesses;
mod bars;
mod crowds;
mod elements;
mod frame;
mod laws;
mod naming;
mod picture;
mod scale;
mod spans;
mod text;
mod victims;
mod waits;

pub use laws::{rows_are_few, rows_have_all};
pub use picture::picture_of;
