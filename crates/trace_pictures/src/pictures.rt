//! A picture in SVG 1.1. All places are in pixels, from the upper left corner.

use std::alloc::Global;
use trace_runs::Text;

/// How wide so many characters are drawn.
fn width_of_characters(count: usize) -> u64 {
    (count as u64).saturating_mul(67) / 10
}

/// How shapes are drawn, in the colours of Okabe and Ito, which people with any sight can tell apart, black and grey among them.
const STYLE: &str = "<defs>
<marker id=\"order\" viewBox=\"0 0 8 8\" refX=\"8\" refY=\"4\" markerWidth=\"6\" markerHeight=\"6\" orient=\"auto\"><path d=\"M0,0 L8,4 L0,8 z\" fill=\"#E69F00\"/></marker>
<marker id=\"read\" viewBox=\"0 0 8 8\" refX=\"8\" refY=\"4\" markerWidth=\"6\" markerHeight=\"6\" orient=\"auto\"><path d=\"M0,0 L8,4 L0,8 z\" fill=\"#56B4E9\"/></marker>
<marker id=\"write\" viewBox=\"0 0 8 8\" refX=\"8\" refY=\"4\" markerWidth=\"6\" markerHeight=\"6\" orient=\"auto\"><path d=\"M0,0 L8,4 L0,8 z\" fill=\"#0072B2\"/></marker>
<marker id=\"collect\" viewBox=\"0 0 8 8\" refX=\"8\" refY=\"4\" markerWidth=\"6\" markerHeight=\"6\" orient=\"auto\"><path d=\"M0,0 L8,4 L0,8 z\" fill=\"#CC79A7\"/></marker>
<marker id=\"reply\" viewBox=\"0 0 8 8\" refX=\"8\" refY=\"4\" markerWidth=\"6\" markerHeight=\"6\" orient=\"auto\"><path d=\"M0,0 L8,4 L0,8 z\" fill=\"#009E73\"/></marker>
<marker id=\"refusal\" viewBox=\"0 0 8 8\" refX=\"8\" refY=\"4\" markerWidth=\"6\" markerHeight=\"6\" orient=\"auto\"><path d=\"M0,0 L8,4 L0,8 z\" fill=\"#D55E00\"/></marker>
<marker id=\"ballot\" viewBox=\"0 0 8 8\" refX=\"8\" refY=\"4\" markerWidth=\"6\" markerHeight=\"6\" orient=\"auto\"><path d=\"M0,0 L8,4 L0,8 z\" fill=\"#000000\"/></marker>
<marker id=\"learn\" viewBox=\"0 0 8 8\" refX=\"8\" refY=\"4\" markerWidth=\"6\" markerHeight=\"6\" orient=\"auto\"><path d=\"M0,0 L8,4 L0,8 z\" fill=\"#999999\"/></marker>
<marker id=\"lost\" viewBox=\"0 0 8 8\" refX=\"4\" refY=\"4\" markerWidth=\"6\" markerHeight=\"6\" orient=\"auto\"><path d=\"M4,0 L4,8\" stroke=\"#000000\" stroke-width=\"2\"/></marker>
</defs>
<style type=\"text/css\">
line { stroke-width: 1.4 }
.order { stroke: #E69F00; marker-end: url(#order) }
.read { stroke: #56B4E9; marker-end: url(#read) }
.write { stroke: #0072B2; marker-end: url(#write) }
.collect { stroke: #CC79A7; marker-end: url(#collect) }
.reply { stroke: #009E73; marker-end: url(#reply) }
.refusal { stroke: #D55E00; marker-end: url(#refusal) }
.ballot { stroke: #000000; marker-end: url(#ballot) }
.learn { stroke: #999999; marker-end: url(#learn) }
.lost { stroke-dasharray: 4,3; marker-end: url(#lost) }
.turn { fill: none; stroke-width: 1.4 }
.up { stroke: #000000; stroke-width: 2; stroke-opacity: 0.7 }
.guide { stroke: #000000; stroke-width: 1; stroke-opacity: 0.12 }
.done { fill: #F0E442; fill-opacity: 0.6 }
.undone { fill: #D55E00; fill-opacity: 0.45 }
.ground { fill: #FFFFFF; fill-opacity: 0.7 }
.start { fill: #009E73 }
.stop { fill: #D55E00 }
.happening { fill: #CC79A7 }
.view { fill: #999999 }
</style>
";

/// The keys of the colours and of the labels.
const LEGEND: &str =
    "<line class=\"order\" x1=\"8\" y1=\"14\" x2=\"26\" y2=\"14\"/><text x=\"30\" y=\"18\">order</text>
<line class=\"read\" x1=\"84\" y1=\"14\" x2=\"102\" y2=\"14\"/><text x=\"106\" y=\"18\">read</text>
<line class=\"write\" x1=\"160\" y1=\"14\" x2=\"178\" y2=\"14\"/><text x=\"182\" y=\"18\">write</text>
<line class=\"collect\" x1=\"236\" y1=\"14\" x2=\"254\" y2=\"14\"/><text x=\"258\" y=\"18\">collect</text>
<line class=\"reply\" x1=\"312\" y1=\"14\" x2=\"330\" y2=\"14\"/><text x=\"334\" y=\"18\">reply</text>
<line class=\"refusal\" x1=\"388\" y1=\"14\" x2=\"406\" y2=\"14\"/><text x=\"410\" y=\"18\">refusal</text>
<line class=\"ballot\" x1=\"464\" y1=\"14\" x2=\"482\" y2=\"14\"/><text x=\"486\" y=\"18\">ballot</text>
<line class=\"learn\" x1=\"540\" y1=\"14\" x2=\"558\" y2=\"14\"/><text x=\"562\" y=\"18\">learn</text>
<text x=\"8\" y=\"36\">#7: message 7 arrives; +9: message 9 is sent; dashed: not handled; a brick's line: it is up</text>
";

/// What stands at the front of a picture of this width and height.
const FRONT: &str = "<?xml version=\"1.0\" encoding=\"UTF-8\"?>
<svg xmlns=\"http://www.w3.org/2000/svg\" version=\"1.1\" width=\"%\" height=\"%\" viewBox=\"0 0 % %\" font-family=\"monospace\" font-size=\"11\">
";

/// What is drawn below all else.
const GROUND: &str = "<rect width=\"100%\" height=\"100%\" fill=\"#FFFFFF\"/>\n";

/// How far bars are from each other.
pub(crate) const TRACK: u64 = 10;

/// A picture.
#[derive(Drop)]
pub(crate) struct Picture {
    alloc: Global,
    shapes: Text,
    labels: Text,
    /// What the next label says.
    pub(crate) name: Text,
}

/// What stands before the shapes of a picture of this width and height.
fn front(alloc: Global, width: u64, height: u64) -> Text {
    let mut text = Text::new(alloc);
    text.fill(FRONT, &[width, height, width, height]);
    text.put(STYLE);
    text.put(GROUND);
    text.put(LEGEND);
    text
}

impl Picture {
    /// Nothing is drawn yet.
    pub(crate) fn new(alloc: Global) -> Picture {
        Picture {
            alloc,
            shapes: Text::new(alloc),
            labels: Text::new(alloc),
            name: Text::new(alloc),
        }
    }

    /// Draws a line of a class, of two where it is lost, from one place to another.
    pub(crate) fn line(&mut self, class: &str, is_lost: bool, from: (u64, u64), to: (u64, u64)) {
        let ((x1, y1), (x2, y2)) = (from, to);
        self.shapes.put("<line class=\"");
        self.shapes.put(class);
        self.shapes.put(if is_lost { " lost" } else { "" });
        self.shapes.fill(
            "\" x1=\"%\" y1=\"%\" x2=\"%\" y2=\"%\"/>\n",
            &[x1, y1, x2, y2],
        );
    }

    /// Draws a turn of a class, of two where it is lost, from one place to another below it, over what is left of both.
    pub(crate) fn turn(&mut self, class: &str, is_lost: bool, from: (u64, u64), end: u64) {
        let (x, y) = from;
        let left = x.saturating_sub(16);
        self.shapes.put("<path class=\"turn ");
        self.shapes.put(class);
        self.shapes.put(if is_lost { " lost" } else { "" });
        self.shapes.fill(
            "\" d=\"M%,% C%,% %,% %,%\"/>\n",
            &[x, y, left, y, left, end, x, end],
        );
    }

    /// Draws bars, which are so many beside each other, in a strip: where its upper left corner is, how wide it is, and where it ends.
    pub(crate) fn strip(&mut self, bars: &Text, tracks: u64, x: u64, width: u64, height: u64) {
        let inner = tracks.saturating_mul(TRACK).max(width);
        self.shapes.fill(
            "<svg x=\"%\" y=\"0\" width=\"%\" height=\"%\" viewBox=\"0 0 % %\" preserveAspectRatio=\"none\">\n",
            &[x, width, height, inner, height],
        );
        self.shapes.put_text(bars);
        self.shapes.put("</svg>\n");
    }

    /// Draws a moment.
    pub(crate) fn dot(&mut self, class: &str, x: u64, y: u64) {
        self.shapes.put("<circle class=\"");
        self.shapes.put(class);
        self.shapes
            .fill("\" cx=\"%\" cy=\"%\" r=\"4\"/>\n", &[x, y]);
    }

    /// Writes the name as a label, its first characters alone where it has more than so many.
    pub(crate) fn label(&mut self, x: u64, y: u64, most: usize) {
        let name = self.name.pieces().as_bytes();
        let width = width_of_characters(name.len().min(most));
        self.labels.fill(
            "<rect class=\"ground\" x=\"%\" y=\"%\" width=\"%\" height=\"12\"/><text x=\"%\" y=\"%\">",
            &[x, y.saturating_sub(9), width, x, y],
        );
        self.labels.put_label(name, most);
        self.labels.put("</text>\n");
        self.name.clear();
    }

    /// The text of the picture, of this width and height.
    pub(crate) fn text(&self, width: u64, height: u64) -> Text {
        let mut text = front(self.alloc, width, height);
        text.put_text(&self.shapes);
        text.put_text(&self.labels);
        // All labels were drawn, so the name has no pieces, but maybe a gap.
        text.put_text(&self.name);
        text.put("</svg>\n");
        text
    }
}
