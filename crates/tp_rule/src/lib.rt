//! The words of the shared table, the one legal history that they tell, and the kinds of atomic step that
//! keep it.
//!
//! A table of words is shared by threads. Each thread acts through a [`Seat`], which stands for one or more
//! passes and has a view, what it knows. The rule ties words and views. At every moment there is one legal
//! history of which every claim and unit word is the packing. Every row that is born in it holds its element.
//! Each seat has seen a prefix of it, and each pass has made exactly its own events. docs/RULE.md draws it.
#![tactic(auto)]

mod bits;
mod exchanges;
mod found;
mod loads;
mod packing;
mod places;
mod plays;
mod rule;
mod seat;
mod stores;
mod view;
mod words;

pub use found::{FoundClaim, FoundHead, FoundUnit};
pub use packing::{Claim, Head, UnitWord};
pub use places::{MARK_KINDS, Places, places_differ};
pub use seat::Seat;
pub use view::{Hand, Known, View};
pub use words::Words;
