//! The board of an object: what a desk is to whoever drives it, without the desk.
//!
//! `specs/Board.antt` has its calls, what happened to them, what each event makes of that, and admission; here stand also
//! what holds of each board that a desk has (`specs/Sound.antt`), the laws of it (`laws`), and the types of what a desk
//! tells of it: events, and receipts with what they free (`pick`). The pin of a part is a page list; a call that runs and
//! an entry have the pins of the parts that their operation reads.
//!
//! `answer` has the answers and refusals of a desk. `specs/Answers.antt` and `specs/Keyed.antt` say which answer is given
//! when, and what it makes of the board.
//!
//! The key of a call is its rank, from 1, among the accepted calls of its session, cancelled ones included: by it a session
//! asks again for a call that it made, and the call is not run twice. It is derived from the board's list of calls
//! (`specs/Keys.antt`): no trace tells it. By `index::Index` a call is found by its session and key without a search.
//! `key_laws` and `ask_laws` have the laws of calls under keys.
#![tactic(auto)]

pub mod answer;
pub mod ask_laws;
pub mod event;
pub mod index;
pub mod key_laws;
pub mod laws;
pub mod pick;
pub mod receipt;
pub mod uncalled;
