//! Checks of HEX texts: written texts, texts with the processor that they tell, and texts with their first fault, all by hand from the form.
mod read;
mod written;
