//! Price tables: what a hose costs under each of several tariffs, on the whole network and without
//! regard to loads, which tariff is the cheapest, and between which bounds each cost lies by the
//! tariff's rule alone.
//!
//! ```
//! let sheet = PriceSheet::new(alloc, &top, &tariffs)?;
//! let tables = sheet.row_tables(alloc)?;
//! if let Some(priced) = sheet.line(alloc, &hose, &mut TablesRows::new(&tables))? {
//!     let cheapest = priced.prices()[priced.best() as usize].cost;
//! }
//! ```
#![tactic(auto)]

mod bounds;
mod priced;
mod pricing;
mod rows;
mod sheet;

pub use priced::{Price, Priced};
pub use rows::TablesRows;
pub use sheet::{MOST_TARIFFS, PriceSheet, law_limit};
