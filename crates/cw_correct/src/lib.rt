//! What the command promises of a call: definitions alone.
#![tactic(auto)]
