// What a relayout leaves beside what a fresh layout leaves, for edits of a meter's page.
#![tactic(auto)]

mod page;
mod show;

use geometry::Size;
use layout::{layout, relayout};
use length::AvailableSpace;
use page::{BLOCK, Field, HIDDEN, LEAF, Node, OUT, Page};
use show::Left;
use std::io::Stdout;
use steps::{Question, number_of};

// The page in a frame of that width.
fn known(width: f32) -> Question {
    let known = Size {
        width: Some(width),
        height: None,
    };
    Question {
        known,
        parent: width,
        definiteHeight: false,
        available: AvailableSpace::Definite(width),
        collapseStart: false,
        collapseEnd: false,
    }
}

// The page as wide as its content wants: each child without a width is probed.
fn unknown(available: AvailableSpace) -> Question {
    let known = Size {
        width: None,
        height: None,
    };
    Question {
        known,
        parent: 320.0,
        definiteHeight: false,
        available,
        collapseStart: false,
        collapseEnd: false,
    }
}

// A page, and the rows that the call before left.
#[derive(Drop)]
struct Session {
    to: Stdout,
    page: Page,
    rows: [f32; 208],
    marks: [u32; 26],
}

// Lines for nodes and candidates, then the verdict on all that the two calls left.
fn compare(to: Stdout, left: &Left, fresh: &Left) {
    show::refusals(to, left.answer, fresh.answer);
    show::nodes(to, left, fresh);
    show::candidates(to, left, fresh);
    let same = same::answers(left.answer, fresh.answer)
        && same::numbers(&left.rows, &fresh.rows)
        && same::words(&left.marks, &fresh.marks)
        && same::words(&left.pairs, &fresh.pairs)
        && same::numbers(&left.triples, &fresh.triples);
    if same {
        show::text(to, b"  same rows, marks and candidates\n");
    } else {
        show::text(to, b"  DIFFERENT\n");
    }
}

// What a relayout left, compared with a fresh layout into memory of its own.
fn against_fresh(to: Stdout, page: &Page, left: &Left, q: Question) {
    let mut rows = [0.0; 208];
    let mut marks = [0; 26];
    let mut pairs = [0; 4];
    let mut triples = [0.0; 6];
    let answer = layout(
        &page.words,
        &page.numbers,
        &mut rows,
        &mut marks,
        &mut pairs,
        &mut triples,
        q,
    );
    let fresh = Left {
        answer,
        rows,
        marks,
        pairs,
        triples,
    };
    compare(to, left, &fresh);
}

impl Session {
    // The page as it is before any change, and its layout.
    fn start(to: Stdout, q: Question) -> Session {
        let page = Page::new();
        let mut rows = [0.0; 208];
        let mut marks = [0; 26];
        let mut pairs = [0; 4];
        let mut triples = [0.0; 6];
        let a = layout(
            &page.words,
            &page.numbers,
            &mut rows,
            &mut marks,
            &mut pairs,
            &mut triples,
            q,
        );
        if number_of(a) != 0 {
            show::text(to, b"the first layout is refused\n");
        }
        Session {
            to,
            page,
            rows,
            marks,
        }
    }

    // A relayout from the rows as they are, beside a layout of the same tables.
    fn relay(&mut self, title: &[u8], edits: &[u32], q: Question) {
        let Session {
            to,
            page,
            rows,
            marks,
        } = self;
        show::text(*to, title);
        let mut pairs = [0; 4];
        let mut triples = [0.0; 6];
        let answer = relayout(
            &page.words,
            &page.numbers,
            rows,
            marks,
            &mut pairs,
            &mut triples,
            edits,
            q,
        );
        let left = Left {
            answer,
            rows: *rows,
            marks: *marks,
            pairs,
            triples,
        };
        against_fresh(*to, page, &left, q);
    }
}

// Every child of the page is kept.
fn unchanged(to: Stdout) {
    let q = known(320.0);
    let mut session = Session::start(to, q);
    session.relay(b"\n0. Nothing has changed. No edit.\n", &[], q);
}

// The rows below the notice are kept as they are, at other places.
fn notice_grows(to: Stdout) {
    let q = known(320.0);
    let mut session = Session::start(to, q);
    session.page.put(Node::Notice, Field::Height, 64.0);
    session.relay(
        b"\n1. The notice grows from 40 to 64 pixels. Edit: 2.\n",
        &[Node::Notice as u32],
        q,
    );
}

// Rows that held zeros are laid; the orders after them move up by one.
fn row_is_shown(to: Stdout) {
    let q = known(320.0);
    let mut session = Session::start(to, q);
    session.page.style(Node::Tariff, BLOCK);
    session.relay(
        b"\n2. The tariff row is shown. Edit: 6.\n",
        &[Node::Tariff as u32],
        q,
    );
}

// No child of the page is kept. 9 and 10 are: the export row is 200 pixels wide as before, so they are asked the same.
fn frame_narrows(to: Stdout) {
    let mut session = Session::start(to, known(320.0));
    session.relay(
        b"\n3. The frame narrows from 320 to 240 pixels. No edit.\n",
        &[],
        known(240.0),
    );
}

// Each relayout starts from the rows that the one before it left.
fn chain(to: Stdout) {
    let q = known(320.0);
    let mut session = Session::start(to, q);
    session.page.style(Node::Badge, HIDDEN);
    session.relay(
        b"\n4a. The badge is hidden. Edit: 11.\n",
        &[Node::Badge as u32],
        q,
    );
    session.page.put(Node::ImportLabel, Field::MarginTop, -26.0);
    session.relay(
        b"\n4b. Then the import label's top margin turns from 20 to -26. Edit: 4.\n",
        &[Node::ImportLabel as u32],
        q,
    );
    session.page.style(Node::Badge, LEAF | OUT);
    session.page.put(Node::Heading, Field::Height, 30.0);
    session.relay(
        b"\n4c. Then the badge is back and the heading grows from 24 to 30. Edits: 11, 1.\n",
        &[Node::Badge as u32, Node::Heading as u32],
        q,
    );
}

// A probe that stands in its row is answered from there, also where the page turns wider and its node is not kept.
fn width_from_content(to: Stdout) {
    let q = unknown(AvailableSpace::MaxContent);
    let mut session = Session::start(to, q);
    session.page.put(Node::ImportValue, Field::Height, 42.0);
    session.relay(
        b"\n5a. As wide as the content wants; the import value grows from 30 to 42. Edit: 5.\n",
        &[Node::ImportValue as u32],
        q,
    );
    session.page.put(Node::Notice, Field::Most, 320.0);
    session.relay(
        b"\n5b. Then the notice wants 320 pixels in place of 280. Edit: 2.\n",
        &[Node::Notice as u32],
        q,
    );
}

// The probes ask for another width, so each is asked anew.
fn width_available(to: Stdout) {
    let mut session = Session::start(to, unknown(AvailableSpace::MaxContent));
    session.relay(
        b"\n5c. The page as at first; then only 220 pixels are available. No edit.\n",
        &[],
        unknown(AvailableSpace::Definite(220.0)),
    );
}

// A list that leaves a change out breaks what a caller owes. The import row is kept, at its new place with its old height.
fn change_not_named(to: Stdout) {
    let q = known(320.0);
    let mut session = Session::start(to, q);
    session.page.put(Node::Notice, Field::Height, 64.0);
    session.page.put(Node::ImportValue, Field::Height, 60.0);
    show::text(
        to,
        b"\n6a. WRONG USE: the notice grows as in 1, and the import value from 30 to 60 pixels.\n",
    );
    session.relay(
        b"    The list names the notice alone: the import row keeps its old height. Edit: 2.\n",
        &[Node::Notice as u32],
        q,
    );
    session.relay(
        b"\n6b. Now the list names the value. Edit: 5.\n",
        &[Node::ImportValue as u32],
        q,
    );
}

// Heights that are parts of their container's: it alone is named when it grows, and the boxes in it follow.
fn half_heights(to: Stdout) {
    let q = known(320.0);
    let mut session = Session::start(to, q);
    session.page.halves(80.0);
    session.relay(
        b"\n7a. The export row is 80 pixels high, its label and value half each. Edits: 8, 9, 10.\n",
        &[
            Node::Export as u32,
            Node::ExportLabel as u32,
            Node::ExportValue as u32,
        ],
        q,
    );
    session.page.put(Node::Export, Field::BoxHeight, 120.0);
    session.relay(
        b"\n7b. Then the row grows to 120 pixels. Edit: 8.\n",
        &[Node::Export as u32],
        q,
    );
}

fn legend(to: Stdout) {
    show::text(
        to,
        b"0 page: 1 heading, 2 notice, 3 import row (4 label, 5 value), 6 tariff row, hidden at first\n",
    );
    show::text(
        to,
        b"(7 label), 8 export row (9 label, 10 value, 11 badge out of the flow), 12 foot\n",
    );
    show::text(
        to,
        b"node: x y width height after the relayout | after a fresh layout\n",
    );
    show::text(
        to,
        b"candidate node order start end line after the relayout | after a fresh layout\n",
    );
}

fn main(rt: HostRuntime) {
    let to = rt.stdout();
    legend(to);
    unchanged(to);
    notice_grows(to);
    row_is_shown(to);
    frame_narrows(to);
    chain(to);
    width_from_content(to);
    width_available(to);
    change_not_named(to);
    half_heights(to);
}
