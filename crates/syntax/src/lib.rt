// The reader of a run's bytes: whether they are a run, and the limits of its calls.
#![tactic(auto)]

pub mod calls;
pub mod codes;
pub mod cursor;
mod lent;
pub mod limits;
mod parts;
pub mod scan;
pub mod sent;

pub use calls::Code;
pub use codes::call_codes;
pub use cursor::{Reader, head_at, limit_of, past_at};
pub use lent::STACK;
pub use limits::{Fitting, Unfit, size_call, size_draft};
pub use scan::{
    CallHead, Fault, RefusedRun, Scanned, Unread, read_head, scan_run, skip_call, skip_term,
    terms_of,
};
pub use sent::{Checks, Sent, sent_at};
