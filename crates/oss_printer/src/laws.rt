//! What is always so of canonical texts: a law on a function without code that may be called for its clause. Touches
//! nothing.

ghost use Rattle.oss_printer.specs.Laws.{CanonicalTextReadsBack, SpansMakeNoDifference};

/// Where some text is read as a specification, but for the places of its parts, the canonical text has tokens, and is a
/// text of that specification but for the places of its parts.
pub fn canonical_text_reads_back()
    ensures { CanonicalTextReadsBack }
{}

/// Specifications that are the same but for the places of their parts have one canonical text.
pub fn spans_make_no_difference()
    ensures { SpansMakeNoDifference }
{}
