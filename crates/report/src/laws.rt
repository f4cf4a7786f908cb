//! Laws over the definitions, as calls whose contracts are the laws.
ghost use Rattle.report.specs.Points.{LinesArePoints, LinesAreAsMany, DimensionsHaveNames, FailsAreAtPoints};
ghost use Rattle.report.specs.Readable.{ConstraintTextsAreReadable, NoteTextsAreReadable, NotesArePlain, DimensionsAreNamed};
ghost use Rattle.report.specs.ReadsBack.{ReportsReadBack};
ghost use Rattle.report.specs.Sound.{ListingIsSound};

use read_back::law_reads_back as law_text_reads_back;
use spl_text::law_tokens_spelled;

/// A state that meets a value satisfies each constraint that is listed of it.
pub fn law_listing()
    ensures { ListingIsSound }
{}

/// The lines of points in a report are those of the points that are no entries, each has a name for each of its
/// dimensions, and each `fail` is at a point.
pub fn law_points()
    ensures lines { LinesArePoints }
    ensures as_many { LinesAreAsMany }
    ensures names { DimensionsHaveNames }
    ensures fails { FailsAreAtPoints }
{}

/// A reader of a report may rely on its text: it tells which variables, which constant and which relation each constraint
/// has, where one constraint ends and the next begins, and whether any is listed at all.
pub fn law_texts()
    ensures names { DimensionsAreNamed }
    ensures constraints { ConstraintTextsAreReadable }
    ensures notes { NoteTextsAreReadable }
{
    law_tokens_spelled();
}

/// `law_texts` covers whatever is listed of a value: it names the value's variables, and its constants are bounds.
pub fn law_plain_notes()
    ensures { NotesArePlain }
{}

/// A report breaks no rule of tokens, and its tokens derive the program that it speaks of, places aside.
pub fn law_reads_back()
    ensures { ReportsReadBack }
{
    law_tokens_spelled();
    law_text_reads_back();
}
