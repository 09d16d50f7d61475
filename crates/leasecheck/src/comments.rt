ghost use Rattle.std.specs.Prelude.{◌≡◌, ◌++◌, ◌∷◌, [], if◌then◌else◌, IfOk, OnOk};
ghost use Rattle.lease_texts.specs.Reading.{is_passed_over};
ghost use Rattle.leasecheck.specs.Comments.{comment_in, comments};

use lease_state::{Bytes, Memory};
use lease_texts::{first_line, is_passed_over};
use std::alloc::Global;

// What a line says that is a comment.
fn comment_in(line: &[u8]) -> &[u8]
    ensures { result.now ≡ comment_in line.now }
{
    match line {
        [b'#', b' ', comment @ ..] | [b'#', comment @ ..] => comment,
        _ => &[],
    }
}

// Adds what the line before says, where this one tells a fact.
fn push_comment(
    alloc: Global,
    comments: &mut Vec<Bytes>,
    before: &[u8],
    line: &[u8],
) -> Result<(), Memory>
    ensures { OnOk result (comments.new.items ≡ (if is_passed_over line.now then comments.old.items
        else comments.old.items ++ comment_in before.now ∷ [])) }
{
    if !is_passed_over(line) {
        comments.push(Bytes::new(Vec::from_slice(alloc, comment_in(before))?))?;
    }
    Ok(())
}

/// What the text of a record says of its facts, one for each: the comment on the line before it, which is empty where that line is
/// none.
///
/// # Errors
///
/// `Memory` where there is none left.
#[tactic(auto, unfolding(crate::specs::Comments::comments_from))]
pub(crate) fn comments_of(alloc: Global, text: &[u8]) -> Result<Vec<Bytes>, Memory>
    ensures { IfOk result (λ found. found.items ≡ comments text.now) }
{
    let mut found = Vec::new(alloc);
    let mut before: &[u8] = &[];
    let mut rest = text;
    while !rest.is_empty() {
        let (line, behind) = first_line(rest);
        push_comment(alloc, &mut found, before, line)?;
        before = line;
        rest = behind;
    }
    Ok(found)
}
