//! The labels of a picture that `trace svg` draws, and whether any two of them overlap.

use std::alloc::{AllocError, Global};

/// How wide a character is drawn, in tenths of a pixel.
const CHARACTER: u64 = 67;

/// How far lines of text have to be from each other, in pixels: a label reaches from 9 above its line to 3 below.
const HEIGHT: u64 = 12;

/// Where a label stands: its ends in tenths of a pixel, and its line in pixels.
#[derive(Clone, Copy)]
struct Label {
    left: u64,
    right: u64,
    line: u64,
}

impl Label {
    /// The label of a text element, from the number behind `<text x="` on.
    fn read(element: &str) -> Option<Label> {
        let (x, behind) = element.split_once("\" y=\"")?;
        let (y, behind) = behind.split_once("\">")?;
        let (word, _) = behind.split_once("</text>")?;
        let left = x.parse::<u64>().ok()?.saturating_mul(10);
        let width = (word.len() as u64).saturating_mul(CHARACTER);
        let line = y.parse::<u64>().ok()?;
        Some(Label {
            left,
            right: left.saturating_add(width),
            line,
        })
    }

    /// Whether two labels share an inner place.
    fn overlaps(self, other: Label) -> bool {
        self.left < other.right
            && other.left < self.right
            && self.line.abs_diff(other.line) < HEIGHT
    }
}

/// Whether each label of a picture can be read, there are some, and no two of them overlap.
pub fn are_apart(alloc: Global, picture: &str) -> Result<bool, AllocError> {
    let mut labels: Vec<Label> = Vec::new(alloc);
    for element in picture.split("<text x=\"").skip(1) {
        let Some(label) = Label::read(element) else {
            return Ok(false);
        };
        for other in labels.as_slice() {
            if label.overlaps(*other) {
                return Ok(false);
            }
        }
        labels.push(label)?;
    }
    Ok(!labels.is_empty())
}
