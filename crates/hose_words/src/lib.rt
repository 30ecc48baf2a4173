//! Lines, words and numbers of a stream of bytes, for the readers of the rest of `hosed`.
//!
//! A `LineReader` cuts a source into lines, and a `Cursor` reads the words of a line one after the
//! other:
//!
//! ```
//! let mut lines = LineReader::new(source);
//! while let Some(line) = lines.next()? {
//!     let Line::Text(text) = line else { continue };
//!     let mut words = Cursor::new(text);
//!     words.expect(b"show")?;
//!     let id = words.number()?;
//!     words.finish()?;
//! }
//! ```
//!
//! Which words a line may have is said by a form (`specs/Form.antt`), part by part as the cursor
//! reads them.
#![tactic(auto)]

mod buffer;
mod cursor;
mod intake;
mod lines;
mod words;

pub use cursor::{Cursor, Keyword, WrongWord};
pub use lines::{INPUT_LIMIT, LINE_LIMIT, Line, LineFault, LineReader, PENDING_LIMIT, law_limits};
pub use words::{Words, number, split};
