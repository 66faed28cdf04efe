// The links of a concentrator: the table of them, what a request asks of a link and sends over it, and what an answer
// makes of the exchange and of its link.
#![tactic(auto)]

mod answers;
mod requests;
mod table;

pub use answers::{flags, link_after, verdict};
pub use requests::{is_ready, link_asked, transmission};
pub use rules::station::STATIONS;
pub use table::LinkTable;
