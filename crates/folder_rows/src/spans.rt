//! Stops that follow one another and find the same.
use row_text::Failure;
use std::alloc::Global;

/// What a stop comes to.
#[derive(Clone, Copy, PartialEq, Eq)]
pub struct Outcome {
    /// How many runs and checkpoints were answered Ok.
    pub(crate) answered: u64,
    pub(crate) newest: u64,
    pub(crate) leg: u64,
    pub(crate) entries: u64,
}

/// Stops that come to the same.
#[derive(Clone, Copy)]
pub struct Span {
    pub(crate) first: u64,
    pub(crate) last: u64,
    pub(crate) outcome: Outcome,
    /// How many second crashes left that.
    pub(crate) cases: u64,
}

/// The span that goes on behind a stop; the lines take one that ends with it.
pub(crate) fn with_stop(
    alloc: Global,
    text: &mut String,
    before: Option<Span>,
    next: Span,
) -> Result<Span, Failure> {
    match before {
        Some(span) if span.outcome == next.outcome => Ok(Span {
            first: span.first,
            last: next.last,
            outcome: span.outcome,
            cases: span.cases.saturating_add(next.cases),
        }),
        _ => {
            put_span(alloc, text, before)?;
            Ok(next)
        }
    }
}

/// The line of a span.
pub(crate) fn put_span(
    alloc: Global,
    text: &mut String,
    span: Option<Span>,
) -> Result<(), Failure> {
    let Some(span) = span else {
        return Ok(());
    };
    let Span {
        first,
        last,
        outcome,
        cases,
    } = span;
    let Outcome {
        answered,
        newest,
        leg,
        entries,
    } = outcome;
    let line = format!(in alloc;
        "  {first}..{last} answered {answered} newest {newest} leg {leg} entries {entries} cases {cases}\n"
    )?;
    text.push_str(line.as_str())?;
    Ok(())
}
