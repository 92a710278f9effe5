//! The edge of the product: where its bytes come from and where they go.
//!
//! A source and a sink tell contracts the bytes that they hold or took, where they can, and count their faults. Every
//! failure to read or to write has such a fault as its cause. Stands on `event_counts`, and on `deck_limits` for the
//! bytes of an input. It gives the layers above an input read to its end, an output of which a sink always took a
//! front, and one relation, `Puts`, for whatever they put.
#![tactic(auto)]

mod buffer;
mod bytes;
mod call_list;
mod held_source;
mod kept_sink;
mod out;
mod pace;
mod reading;
mod std_edge;
mod traits;
mod writing;

pub use buffer::{BUFFER_ROOM, Buffer};
pub use bytes::{Bytes, NoMemory};
pub use call_list::CallList;
pub use held_source::HeldSource;
pub use kept_sink::KeptSink;
pub use out::Out;
pub use pace::{Free, Pace};
pub use reading::{INPUT_LIMIT, ReadEnd, read_all};
pub use std_edge::{StdSink, StdSource};
pub use traits::{Failed, Sink, Source};
pub use writing::WriteFault;
