//! Fields of file formats: numbers, texts, names and lists at the front and at the end of bytes.
//!
//! A number is of one, two or four bytes, the lowest first. Each field has one spelling: `laws` says so.
#![tactic(auto)]

pub mod laws;
mod reading;
mod writing;

pub use reading::{
    byte_in, bytes_in, flag_in, is_name, is_name_or_empty, long_in, name_in, name_or_empty_in,
    named, signed_in, text_in, word_in,
};
pub use writing::{
    put_byte, put_bytes, put_count, put_long, put_long_count, put_short_count, put_signed,
    put_text, put_word,
};
