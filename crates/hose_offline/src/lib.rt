//! What the program does with a topology and a book without waiting for anybody: `run` answers the
//! lines of an input by a book in memory or in a journal, `audit` tells the book of a journal as a
//! text, `run_generated` sums up the script of a seed, `prove` writes a certificate of least cost,
//! `check` judges one, and `price` prices hoses under all tariffs. `hosed` chooses between them by
//! the program's words:
//!
//! ```
//! let why = run(alloc, &OwnCosts, Some("orders.journal"), input, output, cabinet);
//! let outside = &mut Outside::of(input, output, cabinet);
//! let names = Names { topology: "star.txt", journal: "orders.journal" };
//! let why = audit(alloc, &tariff, names, outside);
//! let sizes = Sizes { seed: 7, nodes: 200, links: 600, hoses: 300 };
//! let why = run_generated(alloc, sizes, outside);
//! let why = prove(alloc, &OwnCosts, "star.txt", ends, outside);
//! let why = check(alloc, &OwnCosts, "star.txt", outside);
//! let why = price(alloc, &tariffs, "star.txt", outside);
//! ```
#![tactic(auto)]

mod answering;
mod auditing;
mod checking;
mod generating;
mod input_line;
mod pricing;
mod proving;
mod sheet_answer;
mod talk_end;
mod tally;

pub use answering::run;
pub use auditing::audit;
pub use checking::check;
pub use generating::run_generated;
pub use pricing::price;
pub use proving::{EndWords, prove};
