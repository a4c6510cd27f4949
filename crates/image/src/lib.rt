// The frozen image: a list of counts as bytes that a laptop reads. Here is what it is, and how its header and its pages are read; the
// crates above answer what is asked of it. What is read of an image is read by its address among the bits of all the bytes, so that a field
// is one load of eight bytes. image_write writes it.
#![tactic(auto)]

pub mod head;
pub mod opened;
pub mod page;
