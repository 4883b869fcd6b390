// The columns of what a record is answered.
ghost use Rattle.std.specs.Prelude.{◌≡◌};
ghost use Rattle.trace_run.specs.Entry.{columns_of};

use table::settle::Outcome;
use table::verdict::verdict_number;
use trace::Entry;
use trace_lines::report::Columns;

#[tactic(auto, unfolding(crate::specs::Entry::columns_of))]
pub(crate) fn columns_of(e: Entry, o: Outcome) -> Columns
    ensures { result ≡ columns_of e o }
{
    Columns {
        kind: e.kind,
        reference: e.reference,
        answer: verdict_number(o.verdict),
        note: o.note,
        dispatch: o.dispatch,
    }
}
