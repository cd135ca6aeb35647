// The tables of the page: a heading, a row with a badge out of the flow and a mark that is hidden at first, a seal out of the flow, a foot.
const NODES: usize = 8;

// Nodes, in preorder.
#[derive(Clone, Copy)]
pub enum Node {
    Page,
    Heading,
    Row,
    Badge,
    Mark,
    Value,
    Seal,
    Foot,
}

// Fields of a node's numbers.
#[derive(Clone, Copy)]
pub enum Field {
    MarginTop = 6,
    PaddingTop = 10,
    PaddingLeft = 13,
    Height = 26,
}

// Style words.
pub const LEAF: u32 = 1;

pub const HIDDEN: u32 = 2;

pub const OUT: u32 = 32;

// Units: margins, padding and border in pixels, all else auto.
const UNITS: u32 = 0x0555_5000;

const UNITS_BEYOND: u32 = 0x55;

#[derive(Drop)]
pub struct Page {
    pub words: [u32; 32],
    pub numbers: [f32; 224],
}

impl Page {
    pub fn put(&mut self, node: Node, field: Field, v: f32) {
        let at = style::number_place(NODES, node as usize, field as usize);
        self.numbers[at] = v;
    }

    pub fn style(&mut self, node: Node, v: u32) {
        self.words[4 * (node as usize) + 1] = v;
    }

    // A node, its size, its style and its units.
    fn node(&mut self, node: Node, size: u32, kind: u32) {
        let at = 4 * (node as usize);
        self.words[at] = size;
        self.words[at + 1] = kind;
        self.words[at + 2] = UNITS;
        self.words[at + 3] = UNITS_BEYOND;
    }

    // The row, its badge, its mark and its value.
    fn fill_row(&mut self) {
        self.node(Node::Row, 4, 0);
        self.put(Node::Row, Field::MarginTop, 10.0);
        self.put(Node::Row, Field::PaddingTop, 5.0);
        self.put(Node::Row, Field::PaddingLeft, 8.0);
        self.node(Node::Badge, 1, LEAF | OUT);
        self.node(Node::Mark, 1, HIDDEN);
        self.node(Node::Value, 1, LEAF);
        self.put(Node::Value, Field::Height, 30.0);
    }

    // The whole page, over zeros.
    pub fn new() -> Page {
        let mut page = Page {
            words: [0; 32],
            numbers: [0.0; 224],
        };
        page.node(Node::Page, 8, 0);
        page.node(Node::Heading, 1, LEAF);
        page.put(Node::Heading, Field::Height, 20.0);
        page.fill_row();
        page.node(Node::Seal, 1, LEAF | OUT);
        page.node(Node::Foot, 1, LEAF);
        page.put(Node::Foot, Field::Height, 12.0);
        page
    }
}
