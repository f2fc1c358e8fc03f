//! The unit of each text of bytes can be compiled: the law that the command compiles on, joined from the laws of its parts. Laws alone.
//!
//! *Names.* What a name has to stand for, body by body, is defined in `Uses`. A use that resolves has a row of the table that declares it
//! (`uses_found`), and each declaration, string and FOR has a number of its own in the unit (`counts`): what has that number is what was
//! declared (`names`). So every use stands for a thing of its sort, which its body may name (`all_stand`). An item of the unit has
//! the words of its declaration (`items_stand`), bases stand before what is overlaid on them, and presets have room (`unit_storable`); the
//! unit passes the test of its storage (`stored`).
//!
//! *Trees.* The grammar gives trees whose tokens rise and whose levels are few (`trees`), and the tokens of a text of legal length give
//! literals of a byte and FORs of few elements (`regular`). From this, from names that stand for right things and from types without faults,
//! each expression, reference, call and statement is well formed and has orders that do what it means (`expressions`, `statements`). The
//! numbers in these trees are in the ranges of the language (`expressions`, `statements`), and the unit counts no more tokens than the tree (`unit_counted`).
//!
//! *The unit.* So the unit of a text without a fault is well formed and built (`units`), and in range (`unit_ranged`), and its orders have code; it
//! has at most 32 bytes a token, and a level of the text holds few words, so its need of control stack is small (`need_fits`). What stands behind
//! the code in its object can be written, since its lines are those of the text's tokens (`lines_counted`, `unit_ready`); so can what stands before it:
//! names and descriptors fit their fields (`segment_named` to `bases_listed`), and items hold words of their own (`bytes_kept`). Together: `text_units`.
//!
//! *Calls.* Control parameters have the numbers from 0 on, as they are declared, and types that a text calls the same are of one scale or
//! width. So a procedure that stands as an argument has the very specification of the parameter that takes it (`units_fit`).
#![tactic(auto)]

pub mod laws;
