// Lays out and relays a page over a slice of records, and beside it by the plain calls: the records are the plain pairs and triples.
#![tactic(auto)]

mod lay;
mod page;
mod show;

use lay::{Listed, Rows};
use page::{Field, HIDDEN, LEAF, Node, OUT, Page};
use records::Record;
use std::io::Stdout;
use tree::{NodeId, Order};

// The page, and the rows that the two calls left.
#[derive(Drop)]
struct Both {
    page: Page,
    recorded: Rows,
    plain: Rows,
}

// The records that the plain slices hold.
fn plain_records(listed: &Listed) -> [Record; 2] {
    let [node, order, next_node, next_order] = listed.pairs;
    let [start, end, line, next_start, next_end, next_line] = listed.triples;
    [
        Record {
            node: NodeId(node),
            order: Order(order),
            start,
            end,
            line,
        },
        Record {
            node: NodeId(next_node),
            order: Order(next_order),
            start: next_start,
            end: next_end,
            line: next_line,
        },
    ]
}

// To the last bit.
fn same_record(a: &Record, b: &Record) -> bool {
    a.node.0 == b.node.0
        && a.order.0 == b.order.0
        && limits::same_bits(a.start, b.start)
        && limits::same_bits(a.end, b.end)
        && limits::same_bits(a.line, b.line)
}

// A layout over records and a plain one, or two relayouts if there are edits; then answer, records, pairs, triples, rows and marks of the two.
fn run(to: Stdout, both: &mut Both, edits: Option<&[u32]>) {
    let Both {
        page,
        recorded,
        plain,
    } = both;
    let (left, records) = lay::over_records(page, recorded, edits);
    let plain_left = lay::plainly(page, plain, edits);
    let plain_records = plain_records(&plain_left);
    show::answers(to, left.answer, plain_left.answer);
    for (record, plain) in records.iter().zip(&plain_records) {
        show::record(to, *record, *plain);
    }
    let same = same::answers(left.answer, plain_left.answer)
        && same::numbers(&recorded.rows, &plain.rows)
        && same::words(&recorded.marks, &plain.marks)
        && same::words(&left.pairs, &plain_left.pairs)
        && same::numbers(&left.triples, &plain_left.triples)
        && records
            .iter()
            .zip(&plain_records)
            .all(|(record, plain)| same_record(record, plain));
    if same {
        show::text(to, b"  same answer, records, rows and marks\n");
    } else {
        show::text(to, b"  DIFFERENT\n");
    }
}

// Both lines move down by as much.
fn heading_grows(to: Stdout, both: &mut Both) {
    both.page.put(Node::Heading, Field::Height, 32.0);
    show::text(
        to,
        b"\n2. The heading grows from 20 to 32 pixels. A relayout, edit 1.\n",
    );
    run(to, both, Some(&[1]));
}

// Refusal 5, from both calls: all stays as lent.
fn mark_is_shown(to: Stdout, both: &mut Both) {
    both.page.style(Node::Mark, LEAF | OUT);
    show::text(
        to,
        b"\n3. The mark is shown, out of the flow: three records are needed. A relayout, edit 4.\n",
    );
    run(to, both, Some(&[4]));
    show::text(to, b"\n4. A layout of the same page.\n");
    run(to, both, None);
}

// The badge and the mark, from the rows that 2 left.
fn seal_is_hidden(to: Stdout, both: &mut Both) {
    both.page.style(Node::Seal, HIDDEN);
    show::text(to, b"\n5. The seal is hidden. A relayout, edits 4 and 6.\n");
    run(to, both, Some(&[4, 6]));
}

// One record is written, the other stays as lent. The seal's order counts no hidden row.
fn row_is_hidden(to: Stdout, both: &mut Both) {
    both.page.style(Node::Row, HIDDEN);
    both.page.style(Node::Seal, LEAF | OUT);
    show::text(
        to,
        b"\n6. The row is hidden with all in it, and the seal is back. A layout.\n",
    );
    run(to, both, None);
}

fn main(rt: HostRuntime) {
    let to = rt.stdout();
    show::text(
        to,
        b"node order start end line over records | plain; two records are lent as 99 99 -1 -1 -1\n",
    );
    let mut both = Both {
        page: Page::new(),
        recorded: Rows {
            rows: [0.0; 128],
            marks: [0; 16],
        },
        plain: Rows {
            rows: [0.0; 128],
            marks: [0; 16],
        },
    };
    // The badge and the seal are listed; the mark is hidden.
    show::text(to, b"\n1. A layout: the badge and the seal.\n");
    run(to, &mut both, None);
    heading_grows(to, &mut both);
    mark_is_shown(to, &mut both);
    seal_is_hidden(to, &mut both);
    row_is_hidden(to, &mut both);
}
