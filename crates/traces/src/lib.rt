// Traces: recorded lists of calls, as the program `replay` reads them, and the text of the answers.
// Fields are least octet first. Functions take the input and a position in it, by which a refusal is told.
#![tactic(auto)]

mod calls;
mod elements;
mod places;
mod text;

pub use calls::{
    ExplainCall, FrameCall, MoveCall, ReaderCall, ReportCall, RsnaCall, SetupCall, Span,
    WriterCall, explain_call_at, frame_call_at, move_at, peer_link_at, reader_call_at, reading_at,
    report_call_at, requesters_at, rsna_call_at, setup_at, transition_at, writer_call_at,
};
pub use elements::{Elements, elements_at};
pub use places::{RecordKind, record_end, record_kind};
pub use text::{
    BUFFER, BUFFER_LINE, LINE, answer_line, buffer_line, explanation_line, fill_buffer,
    lent_buffer, put_buffer_line, trace_refusal_line,
};
