//! The writing of a run's texts to its sinks.

ghost use Rattle.jvolve_top.specs.Outside.{sunk, sinks};
ghost use Rattle.jvolve_top.specs.Delivers.{texts_view, Delivers};

use jv_outer::{Sink, WriteError, write_all};
use jv_types::Bytes;

/// What is to be written of a run.
#[derive(Drop)]
pub(crate) struct Texts {
    pub(crate) out: Bytes,
    pub(crate) report: Bytes,
    pub(crate) trace: Bytes,
}

/// Writes one text after the other, each to its sink. At the first `Err` nothing more is written.
pub(crate) fn deliver<O: Sink, R: Sink, J: Sink>(
    texts: &Texts,
    out: &mut O,
    report: &mut R,
    trace: &mut J,
) -> Result<(), WriteError>
    ensures { Delivers result
        (sinks (sunk O.bytes O.writes O.faults out.old out.new)
        (sunk R.bytes R.writes R.faults report.old report.new)
        (sunk J.bytes J.writes J.faults trace.old trace.new))
        (texts_view texts.now) }
{
    write_all(out, texts.out.as_slice())?;
    write_all(report, texts.report.as_slice())?;
    write_all(trace, texts.trace.as_slice())
}
