// What the command does with files: what went wrong with them, output in large pieces, texts read as a whole, and traces in pieces.
#![tactic(auto)]

pub mod answers; // answers that are written in large pieces
pub mod args; // the program's arguments, as the system gives them
pub mod failure; // why a read or a write failed
pub mod fault; // what is wrong with a trace
pub mod files; // files by the arguments that name them
pub mod held; // a record, taken from the pieces of a trace
pub mod identity; // which file a name stands for
pub mod input; // a file that is read in pieces
pub mod output; // output that is written in large pieces
pub mod reason; // why the system refused something, in its words
pub mod sink; // where bytes are written
pub mod stop; // why a command ends early
pub mod text_file; // a file of text as a whole
