//! Captures of SMB2 as lines of text, one for each frame of the transport, and what is judged of them.
//!
//! ```
//! let mut capture = Capture::new(alloc, Side::Server);
//! capture.take_line(b"frame 7 12.5 0 10.0.0.1:49832 10.0.0.2:445 from-client 0 fe534d42")?;
//! let report = capture.report(alloc)?;
//! println!(rt; "{}", report.verdict())?;
//! for file in &report.files {
//!     push_file(alloc, &mut text, file)?;
//! }
//! ```
//!
//! The record of a report is what its clients cache, as facts that `judge` reads, with remarks that lead back to the packets:
//!
//! ```
//! for line in &record_of(alloc, &report)? {
//!     match line {
//!         RecordLine::Fact(fact) => push_fact(&mut text, fact)?,
//!         RecordLine::Remark(remark) => writeln!(&mut text, "# {remark}")?,
//!     }
//! }
//! ```
//!
//! docs/FORMATS.md has the lines. What the report says of each file is proved to be what the definitions of `capture_walk` and
//! `capture_judge` say of the lines that were taken.
#![tactic(auto)]

mod capture;
mod connections;
mod finding;
mod laws;
mod line;
mod names;
mod reading;
mod records;
mod report;
mod servers;
mod texts;
mod walking;
mod whole;

pub use capture::Capture;
pub use finding::{
    Belief, BreakFinding, CaptureVerdict, Clash, ClientFinding, ClientName, Counts, EpochFinding,
    FileFinding, FilePlace, Judged, LeaseFinding, Report,
};
pub use laws::verdicts_are_of_files;
pub use lease_texts::{LineFault, TextFault};
pub use line::{Moment, Side};
pub use names::{MessageName, MessageNames, MessagePart};
pub use records::{RecordLine, notes_of, record_of};
pub use texts::{push_counts, push_epoch, push_file, push_lease, push_lost};
pub use whole::read_capture;
