// The check of a model against a book.
ghost use Rattle.std.specs.Prelude.{◌≡◌};
ghost use Rattle.semantics.specs.Checks.{Checked};
ghost use Rattle.checking.specs.Values.{InEach};
ghost use Rattle.checking.specs.Findings.{listed, Finds, answered};

use crate::candidate::Candidate;
use crate::finding::Failure;
use books::book::Book;
use syntax::types::Refusal;

// The first clause that fails, with its first failing assignment.
fn first_clause<B: Book>(book: &B, candidate: &Candidate<'_>) -> Option<Failure>
    requires { candidate.now.counts ≡ B.counts book.now }
    ensures { InEach candidate.now.counts candidate.now.bytes.now (λ I. Finds candidate.now.counts (B.clauses book.now) I (listed result)) }
{
    for i in 0..book.len() {
        if let Some(names) = candidate.failing_in(book, i) {
            return Some(Failure { clause: i, names });
        }
    }
    None
}

// Nothing where the interpretation of the bytes is a model of the book, or what fails first; refused as 9
// where no interpretation over the counts has the bytes.
pub fn check<B: Book>(book: &B, bytes: &[u8]) -> Result<Option<Failure>, Refusal>
    ensures { Checked (B.counts book.now) (B.clauses book.now) bytes.now (answered result) }
{
    let Some(candidate) = Candidate::of(book.counts(), bytes) else {
        return Err(Refusal::NotInterpretation);
    };
    Ok(first_clause(book, &candidate))
}
