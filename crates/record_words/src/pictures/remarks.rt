ghost use Rattle.std.specs.Prelude.{◌≡◌, IfOk, map, take};
ghost use Rattle.record_words.specs.pictures.Remarks.{said_of, words_of};

use crate::pictures::lanes::{Lanes, down};
use crate::pictures::picture::Remark;
use crate::pictures::rows::Rows;
use crate::pictures::shape::{Point, Size};
use lease_state::{Bytes, Memory};
use std::alloc::Global;

// How wide the column of remarks is, in pixels.
const WIDTH: u32 = 480;

// What is to be said of so many facts.
fn first_of(remarks: &[Bytes], facts: usize) -> &[Bytes]
    ensures { result.now ≡ take facts remarks.now }
{
    if facts < remarks.len() {
        &remarks[..facts]
    } else {
        remarks
    }
}

// What is said of the first `facts` facts, to the right of the lanes, each in the row of its fact.
pub(crate) fn remarks_on(
    alloc: Global,
    lanes: &Lanes,
    rows: &Rows,
    facts: usize,
    remarks: &[Bytes],
) -> Result<Vec<Remark>, Memory>
    ensures { IfOk result (λ said. map words_of said.items ≡ said_of facts remarks.now) }
{
    let x = lanes.width();
    let mut said = Vec::new(alloc);
    for (index, words) in first_of(remarks, facts).iter().enumerate() {
        if !words.is_empty() {
            let y = down(rows.of_fact(index), 16);
            let words = words.try_copy()?;
            said.push(Remark {
                at: Point { x, y },
                words,
            })?;
        }
    }
    Ok(said)
}

// The size of a page with room for these remarks.
pub(crate) fn widened(size: Size, remarks: &[Remark]) -> Size {
    if remarks.is_empty() {
        size
    } else {
        Size {
            width: size.width.saturating_add(WIDTH),
            height: size.height,
        }
    }
}
