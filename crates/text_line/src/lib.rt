// Text put on a page: a line that is lent, and an index. Each `put_` method puts what it has at the index, as far as there is room, and
// moves the index behind it.
// Kept: methods that put texts, and no `Display`: the types that are described are other crates', and a page that is full cuts a text
// without an error, which `fmt::Result` is not.
#![tactic(auto, using(crate::proofs::Putting::putting))]

pub mod text; // the page, texts and numbers

pub use text::{LINE, PAGE, Page};
