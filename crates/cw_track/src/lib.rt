//! Two deterministic machines, one of which tracks the other with costs.
//!
//! The meaning of a program, the orders that it is compiled to and the processor that runs its code are three such
//! machines, and each tracks the one before it. What that says stands in `specs/`: `Machine` and `Tracking`. Its lemmas
//! stand in `proofs/`: a forward simulation gives tracking (`Simulations`, over the `Paths` of a machine), tracking
//! composes (`Composition`), and what is paid for within a budget is bounded in steps (`Budgets`).
//!
//! The crates above cite these lemmas from `proofs/`, each at the machines that it is about. Elsewhere crates meet by the
//! clauses of public functions alone. This is the one exception: a clause is a `Type 0`, and what is said of all machines
//! is not, since `Machine` is a `Type 1`. The laws here tell the bound in numbers, and show the lemmas at work on three small
//! machines.
#![tactic(auto)]

pub mod laws;
