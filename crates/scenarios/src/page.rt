// The tables of the page: a heading, a notice, a row for what came in, a row for what went out, a foot.
pub const NODES: usize = 13;
// Candidate records lent: one is used, the other has to stay as it is.
pub const RECORDS: usize = 2;

// Nodes, in preorder.
#[derive(Clone, Copy)]
pub enum Node {
    Page,
    Heading,
    Notice,
    Import,
    ImportLabel,
    ImportValue,
    Tariff,
    TariffLabel,
    Export,
    ExportLabel,
    ExportValue,
    Badge,
    Foot,
}

// Style words.
pub const BLOCK: u32 = 0;

pub const LEAF: u32 = 1;

pub const HIDDEN: u32 = 2;

pub const RELATIVE: u32 = 16;

pub const OUT: u32 = 32;

// Fields of a node's numbers.
#[derive(Clone, Copy)]
pub enum Field {
    Width = 0,
    BoxHeight = 1,
    MarginTop = 6,
    MarginRight = 7,
    MarginBottom = 8,
    MarginLeft = 9,
    PaddingTop = 10,
    PaddingBottom = 12,
    InsetLeft = 21,
    Ratio = 22,
    Least = 24,
    Most = 25,
    Height = 26,
}

// Units: margins, padding and border in pixels, all else auto.
const UNITS: u32 = 0x0555_5000;

const UNITS_BEYOND: u32 = 0x55;

#[derive(Drop)]
pub struct Page {
    pub words: [u32; 52],
    pub numbers: [f32; 364],
}

impl Page {
    pub fn put(&mut self, node: Node, field: Field, v: f32) {
        let at = style::number_place(NODES, node as usize, field as usize);
        self.numbers[at] = v;
    }

    pub fn style(&mut self, node: Node, v: u32) {
        self.words[4 * (node as usize) + 1] = v;
    }

    fn units(&mut self, node: Node, v: u32) {
        self.words[4 * (node as usize) + 2] = v;
    }

    fn units_beyond(&mut self, node: Node, v: u32) {
        self.words[4 * (node as usize) + 3] = v;
    }

    fn node(&mut self, node: Node, size: u32, kind: u32) {
        self.words[4 * (node as usize)] = size;
        self.style(node, kind);
        self.units(node, UNITS);
        self.units_beyond(node, UNITS_BEYOND);
    }

    fn leaf(&mut self, node: Node, least: f32, most: f32, height: f32) {
        self.node(node, 1, LEAF);
        self.put(node, Field::Least, least);
        self.put(node, Field::Most, most);
        self.put(node, Field::Height, height);
    }

    fn margins(&mut self, node: Node, top: f32, bottom: f32) {
        self.put(node, Field::MarginTop, top);
        self.put(node, Field::MarginBottom, bottom);
    }

    // The heading, and the notice between side margins.
    fn fill_head(&mut self) {
        self.leaf(Node::Heading, 60.0, 200.0, 24.0);
        self.margins(Node::Heading, 12.0, 12.0);
        self.leaf(Node::Notice, 80.0, 280.0, 40.0);
        self.margins(Node::Notice, 8.0, 16.0);
        self.put(Node::Notice, Field::MarginLeft, 10.0);
        self.put(Node::Notice, Field::MarginRight, 10.0);
    }

    // The import row, whose top margin and its label's are one.
    fn fill_import(&mut self) {
        self.node(Node::Import, 3, BLOCK);
        self.margins(Node::Import, 10.0, 10.0);
        self.leaf(Node::ImportLabel, 40.0, 90.0, 20.0);
        self.margins(Node::ImportLabel, 20.0, 0.0);
        self.leaf(Node::ImportValue, 50.0, 120.0, 30.0);
    }

    // The tariff row, hidden at first.
    fn fill_tariff(&mut self) {
        self.node(Node::Tariff, 2, HIDDEN);
        self.margins(Node::Tariff, 6.0, 6.0);
        self.leaf(Node::TariffLabel, 40.0, 90.0, 18.0);
    }

    // The export row: 200 pixels wide, at the right by an auto margin, with padding.
    fn fill_export(&mut self) {
        self.node(Node::Export, 4, BLOCK);
        self.units(Node::Export, 0x0551_5001);
        self.put(Node::Export, Field::Width, 200.0);
        self.margins(Node::Export, 12.0, 10.0);
        self.put(Node::Export, Field::PaddingTop, 5.0);
        self.put(Node::Export, Field::PaddingBottom, 5.0);
    }

    // What is in it: a label, a value, and the badge out of the flow.
    fn fill_export_row(&mut self) {
        self.leaf(Node::ExportLabel, 40.0, 90.0, 20.0);
        self.leaf(Node::ExportValue, 50.0, 120.0, 30.0);
        self.leaf(Node::Badge, 16.0, 16.0, 16.0);
        self.style(Node::Badge, LEAF | OUT);
    }

    // The export row that high, padding and all, its label and its value half of what is left.
    pub fn halves(&mut self, height: f32) {
        self.units(Node::Export, 0x0551_5005);
        self.put(Node::Export, Field::BoxHeight, height);
        self.units(Node::ExportLabel, 0x0555_5008);
        self.put(Node::ExportLabel, Field::BoxHeight, 0.5);
        self.units(Node::ExportValue, 0x0555_5008);
        self.put(Node::ExportValue, Field::BoxHeight, 0.5);
    }

    // The foot: half as wide as the page, a tenth as high as wide, moved 4 pixels to the left.
    fn fill_foot(&mut self) {
        self.leaf(Node::Foot, 40.0, 80.0, 10.0);
        self.style(Node::Foot, LEAF | RELATIVE);
        self.units(Node::Foot, 0x0555_5002);
        self.units_beyond(Node::Foot, 0x4055);
        self.put(Node::Foot, Field::Width, 0.5);
        self.put(Node::Foot, Field::Ratio, 10.0);
        self.margins(Node::Foot, 10.0, 0.0);
        self.put(Node::Foot, Field::InsetLeft, -4.0);
    }

    // The whole page, over zeros.
    pub fn new() -> Page {
        let mut page = Page {
            words: [0; 52],
            numbers: [0.0; 364],
        };
        page.node(Node::Page, 13, BLOCK);
        page.fill_head();
        page.fill_import();
        page.fill_tariff();
        page.fill_export();
        page.fill_export_row();
        page.fill_foot();
        page
    }
}
