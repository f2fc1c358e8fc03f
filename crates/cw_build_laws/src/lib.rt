//! A processor that is started with the image of units is loaded with them: laws alone.
//!
//! Units that are built and agree are well formed together and have orders that do what they mean, and orders whose numbers are in range have
//! code (`Built`). So where they link, their image and first words are what a processor is loaded with, and what is compiled apart is linked
//! as what is compiled together (`Images`).
#![tactic(auto)]

pub mod laws;
