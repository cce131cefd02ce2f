//! The run of a layout and a schedule, a line after another: what each line did, and which messages it delivered and sent.
//!
//! It stands on what the world tells: its marks, its messages in the order of sending, which of them were delivered, what bricks reported, and which
//! views they have learnt.
#![tactic(auto)]

mod journals;
mod line_effects;
mod line_runs;
mod operation_texts;
mod packets;
mod stripe_histories;
mod texts;

pub use journals::{Journal, Operation, Owner, number_at, place_of};
pub use line_effects::{
    DeliveryOutcome, FaultOutcome, LearntView, LineEffects, SpareSeat, Suspicion, is_up, packet_at,
};
pub use line_runs::{LineRun, take_line};
pub use operation_texts::{answer_of, change, op_of, put_answer, put_op};
pub use packets::{kind_of, put_message, word_of};
pub use stripe_histories::{StripeHistory, histories_of};
pub use texts::Text;
