//! The text of a page of SVG: shapes and text, each with its title.

use crate::layout::{Area, PagePoint};
use fixed_num::Memory;
use std::alloc::Global;

/// The elements of a page so far. What is drawn later lies above.
#[derive(Drop)]
pub struct Svg {
    text: String,
}

impl Svg {
    /// Nothing is drawn yet. It takes no memory.
    pub fn new(alloc: Global) -> Svg {
        Svg {
            text: String::new(alloc),
        }
    }

    /// The elements, in the order in which they were drawn.
    pub fn as_str(&self) -> &str {
        self.text.as_str()
    }

    /// A rectangle of this class; its title, where it is not empty, is what a pointer over it tells.
    pub fn rect(&mut self, class: &str, area: Area, title: &str) -> Result<(), Memory> {
        let Area {
            x,
            y,
            width,
            height,
        } = area;
        write!(self.text, "<rect class=\"{class}\" x=\"{x}\" y=\"{y}\"")?;
        write!(self.text, " width=\"{width}\" height=\"{height}\"")?;
        self.close("rect", title)
    }

    /// A straight line.
    pub fn line(&mut self, class: &str, from: PagePoint, to: PagePoint) -> Result<(), Memory> {
        let (x, y) = (from.x, from.y);
        write!(self.text, "<line class=\"{class}\" x1=\"{x}\" y1=\"{y}\"")?;
        let (x, y) = (to.x, to.y);
        write!(self.text, " x2=\"{x}\" y2=\"{y}\"")?;
        self.close("line", "")
    }

    /// A path of these steps.
    pub fn path(&mut self, class: &str, steps: &str, title: &str) -> Result<(), Memory> {
        write!(self.text, "<path class=\"{class}\" d=\"{steps}\"")?;
        self.close("path", title)
    }

    /// A circle round a point.
    pub fn circle(
        &mut self,
        class: &str,
        centre: PagePoint,
        radius: u64,
        title: &str,
    ) -> Result<(), Memory> {
        let (x, y) = (centre.x, centre.y);
        write!(
            self.text,
            "<circle class=\"{class}\" cx=\"{x}\" cy=\"{y}\" r=\"{radius}\""
        )?;
        self.close("circle", title)
    }

    /// A line of text that begins at a point, or as its class says ends or stands round it.
    pub fn words(
        &mut self,
        class: &str,
        at: PagePoint,
        words: &str,
        title: &str,
    ) -> Result<(), Memory> {
        let (x, y) = (at.x, at.y);
        write!(self.text, "<text class=\"{class}\" x=\"{x}\" y=\"{y}\">")?;
        self.title(title)?;
        push_escaped(&mut self.text, words)?;
        self.text.push_str("</text>\n")?;
        Ok(())
    }

    /// Ends an element that has no text, with its title.
    fn close(&mut self, element: &str, title: &str) -> Result<(), Memory> {
        if title.is_empty() {
            self.text.push_str("/>\n")?;
            return Ok(());
        }
        self.text.push_str(">")?;
        self.title(title)?;
        write!(self.text, "</{element}>\n")?;
        Ok(())
    }

    /// A title, where there is one.
    fn title(&mut self, title: &str) -> Result<(), Memory> {
        if title.is_empty() {
            return Ok(());
        }
        self.text.push_str("<title>")?;
        push_escaped(&mut self.text, title)?;
        self.text.push_str("</title>")?;
        Ok(())
    }
}

/// Appends a text as SVG writes it: what has a meaning of its own there is named.
fn push_escaped(text: &mut String, words: &str) -> Result<(), Memory> {
    for letter in words.chars() {
        match named(letter) {
            Some(name) => text.push_str(name)?,
            None => text.push(letter)?,
        }
    }
    Ok(())
}

/// What stands for a letter that has a meaning of its own.
fn named(letter: char) -> Option<&'static str> {
    match letter {
        '&' => Some("&amp;"),
        '<' => Some("&lt;"),
        '>' => Some("&gt;"),
        '"' => Some("&quot;"),
        // No page of SVG may have a control character.
        '\0'..='\u{1f}' => Some("?"),
        _ => None,
    }
}

/// The first letters of a text, and an ellipsis if letters are left out.
pub fn shortened(alloc: Global, words: &str, most: usize) -> Result<String, Memory> {
    let mut text = String::new(alloc);
    if words.chars().count() <= most {
        text.push_str(words)?;
        return Ok(text);
    }
    for letter in words.chars().take(most.saturating_sub(1)) {
        text.push(letter)?;
    }
    text.push('…')?;
    Ok(text)
}
