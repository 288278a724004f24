// A grid read through a view of its page, which is its own part of the lent stamps. A view holds the page's slice; its readers take it
// apart and ask the grid. The rest of the pool calls the functions of `page`, which have plain parameters.
#![tactic(auto)]

mod page;
mod view;

pub use page::{dirty_tile, written_since};
pub use view::{GridView, view_of};
