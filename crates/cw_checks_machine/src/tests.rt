//! The checks, by what they check.
mod arithmetic;
mod assembly;
mod encodings;
mod ports;
mod steps;
