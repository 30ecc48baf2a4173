//! What the program does to copy a journal: `ship` writes its entries as packets, and `follow`
//! takes packets into a journal that follows it; `move_journal` writes what a journal of one
//! network holds into a journal of another one, and `cut_journal` its first entries into another
//! journal. `hosed` chooses between them by the program's words:
//!
//! ```
//! let names = Names { topology: "star.txt", journal: "orders.journal" };
//! let why = ship(alloc, &OwnCosts, names, 1, outside);
//! let why = follow(alloc, &OwnCosts, names, outside);
//! let why = move_journal(alloc, &OwnCosts, Move { from, to, live: false }, outside);
//! let why = cut_journal(alloc, &OwnCosts, Cut { from, count: 7, to: "first.journal" }, outside);
//! ```
#![tactic(auto)]

mod following;
mod move_end;
mod moving;
mod shipping;

pub use following::follow;
pub use moving::{Cut, cut_journal, move_journal};
pub use shipping::ship;
