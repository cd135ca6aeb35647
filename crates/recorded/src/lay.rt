// A layout or a relayout over two records, and the same by the plain call: what each answers and lists, by value.
use crate::page::Page;
use geometry::Size;
use layout::{layout, relayout};
use length::AvailableSpace;
use records::{Record, layout_records, relayout_records};
use steps::{Question, Refusal};
use tree::{NodeId, Order};

// Rows and marks, kept from one call to the next.
#[derive(Drop)]
pub struct Rows {
    pub rows: [f32; 128],
    pub marks: [u32; 16],
}

// The answer, and the plain candidates that were lent.
#[derive(Clone, Copy)]
pub struct Listed {
    pub answer: Result<u32, Refusal>,
    pub pairs: [u32; 4],
    pub triples: [f32; 6],
}

// A record as it is lent; the plain slices are lent with the same numbers.
const BLANK: Record = Record {
    node: NodeId(99),
    order: Order(99),
    start: -1.0,
    end: -1.0,
    line: -1.0,
};

// The page in a frame 200 pixels wide.
fn question() -> Question {
    let known = Size {
        width: Some(200.0),
        height: None,
    };
    Question {
        known,
        parent: 200.0,
        definiteHeight: false,
        available: AvailableSpace::Definite(200.0),
        collapseStart: false,
        collapseEnd: false,
    }
}

// A relayout if there are edits, else a layout.
pub fn plainly(page: &Page, left: &mut Rows, edits: Option<&[u32]>) -> Listed {
    let Page { words, numbers } = page;
    let Rows { rows, marks } = left;
    let mut pairs = [99; 4];
    let mut triples = [-1.0; 6];
    let q = question();
    let answer = match edits {
        None => layout(words, numbers, rows, marks, &mut pairs, &mut triples, q),
        Some(edits) => relayout(
            words,
            numbers,
            rows,
            marks,
            &mut pairs,
            &mut triples,
            edits,
            q,
        ),
    };
    Listed {
        answer,
        pairs,
        triples,
    }
}

// The same over records.
pub fn over_records(page: &Page, left: &mut Rows, edits: Option<&[u32]>) -> (Listed, [Record; 2]) {
    let Page { words, numbers } = page;
    let Rows { rows, marks } = left;
    let mut pairs = [99; 4];
    let mut triples = [-1.0; 6];
    let mut records = [BLANK; 2];
    let q = question();
    let answer = match edits {
        None => layout_records(
            words,
            numbers,
            rows,
            marks,
            &mut pairs,
            &mut triples,
            &mut records,
            q,
        ),
        Some(edits) => relayout_records(
            words,
            numbers,
            rows,
            marks,
            &mut pairs,
            &mut triples,
            &mut records,
            edits,
            q,
        ),
    };
    let listed = Listed {
        answer,
        pairs,
        triples,
    };
    (listed, records)
}
