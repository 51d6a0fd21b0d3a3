//! Control messages: frames, items, and answers in fragments.

mod groups;
mod item_text;
mod reading;
mod status;
mod writing;
